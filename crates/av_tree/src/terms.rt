ghost use Rattle.std.specs.Prelude.{◌≡◌, IfOk};

use crate::Term;
use av_base::{List, Memory};
use std::alloc::Global;
use std::marker::Model;
use std::rc::Rc;

/// The terms of an index expression, which contracts see as their list. A comparison of lists stands in the tree as one comparison
/// for each pair of their members; what a member says is kept once, and shared by these.
#[derive(Debug, Drop)]
pub struct Terms {
    shared: Rc<List<Term>>,
}

impl Model for Terms {
    ghost use Rattle.std.specs.Prelude.{List as Items};
    ghost use Rattle.av_tree.specs.declared.domain.Term.{Term};

    ghost Value = { Items Term };

    ghost view = { λ terms. terms.shared.value };
}

impl Terms {
    /// These terms.
    pub fn new(alloc: Global, terms: List<Term>) -> Result<Terms, Memory>
        ensures { IfOk result (λ made. made ≡ terms) }
    {
        let shared = Rc::new(alloc, terms)?;
        Ok(Terms { shared })
    }

    /// The terms, in the order of the text.
    pub fn as_slice(&self) -> &[Term]
        ensures { result.now ≡ self.now }
    {
        self.shared.as_ref().as_slice()
    }

    /// The same terms. They are shared and not copied, unless they have as many owners already as can be counted.
    pub fn share(&self, alloc: Global) -> Result<Terms, Memory>
        ensures { IfOk result (λ same. same ≡ self.now) }
    {
        match self.shared.clone() {
            Ok(shared) => Ok(Terms { shared }),
            Err(_) => Terms::new(alloc, copies(alloc, self.as_slice())?),
        }
    }
}

fn copy(term: &Term) -> Result<Term, Memory>
    ensures { IfOk result (λ copy. copy ≡ term.now) }
{
    let name = match &term.name {
        Some(name) => Some(name.clone()?),
        None => None,
    };
    Ok(Term {
        factor: term.factor,
        name,
        place: term.place,
    })
}

fn copies(alloc: Global, terms: &[Term]) -> Result<List<Term>, Memory>
    ensures { IfOk result (λ copies. copies ≡ terms.now) }
{
    let mut copies = List::new(alloc);
    for term in terms {
        copies.push(copy(term)?)?;
    }
    Ok(copies)
}
