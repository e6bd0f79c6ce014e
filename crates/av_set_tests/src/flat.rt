//! Passes one after another.

ghost use Rattle.std.specs.Prelude.{IfOk};
ghost use Rattle.av_flat.specs.Shown.{SameMeaning};

use crate::sets::{form, scaled, set};
use av_affine::{Map, Rows};
use av_base::{List, Memory, Name, Op, Width, Word};
use av_flat::{
    Choice, Feeds, Flat, Kind, Meant, Pass, Piece, Then, ThenFault, Tree, Var, copy_flat,
};
use av_poly::Poly;
use av_tree::{Relation, Sign};
use std::alloc::Global;
use std::process::Abort;
use std::test::Fail;

// A system that shows its word wherever it is asked, and how often it was marked, which it does not show.
#[derive(Debug, Drop)]
struct MarkedWord {
    word: u32,
    marks: u32,
}

impl Meant for MarkedWord {
    ghost use Rattle.std.specs.Prelude.{◌≡◌, []};

    ghost shows = { λ cell x name z w. w ≡ cell.word };

    ghost declares = { λ cell k name z. z ≡ [] };
}

// Marks a cell once more. A cell with as many marks as are allowed is refused, by its word.
#[derive(Clone, Copy, Debug)]
struct Mark {
    most: u32,
}

impl Pass for Mark {
    ghost use Rattle.std.specs.Prelude.{◌≡◌, ⊤};
    ghost use Rattle.std.proofs.Common.{sym, ◌∙◌};

    type In = MarkedWord;

    type Out = MarkedWord;

    type Fault = u32;

    ghost takes = { λ from. ⊤ };

    ghost gives = { λ from to. to.word ≡ from.word };

    ghost refuses = { λ from fault. fault ≡ from.word };

    fn run(&self, _: Global, from: &MarkedWord) -> Result<MarkedWord, u32> {
        if from.marks >= self.most {
            return Err(from.word);
        }
        Ok(MarkedWord {
            word: from.word,
            marks: from.marks + 1,
        })
    }

    ghost same = { λ from to _ e. record {
      shown = λ x name z w. (λ h. h ∙ sym e, λ h. h ∙ e);
      declared = λ k s name z. (λ h. h, λ h. h);
    } };
}

impl Feeds<Mark> for Mark {
    ghost fits = { λ from to takes gives. tt };
}

// Gives the same flat system.
#[derive(Clone, Copy, Debug)]
struct Copying;

impl Pass for Copying {
    ghost use Rattle.std.specs.Prelude.{◌≡◌, ⊤};
    ghost use Rattle.std.proofs.Common.{sym, subst};
    ghost use Rattle.av_flat.specs.Trees.{FlatSystem, view_system};
    ghost use Rattle.av_flat.specs.Shown.{SameMeaning, same_meaning_refl};
    ghost use Rattle.av_flat.specs.Solutions.{shows_of, declares_of};

    type In = Flat;

    type Out = Flat;

    type Fault = Memory;

    ghost takes = { λ from. ⊤ };

    ghost gives = { λ from to. view_system to ≡ view_system from };

    ghost refuses = { λ from fault. ⊤ };

    fn run(&self, alloc: Global, from: &Flat) -> Result<Flat, Memory> {
        copy_flat(alloc, from)
    }

    ghost same = { λ from to _ e. let P : FlatSystem
        → Type 0 = λ s. SameMeaning (shows_of (view_system from)) (declares_of
        (view_system from)) (shows_of s) (declares_of s) in subst P (sym e) (same_meaning_refl
        (shows_of (view_system from)) (declares_of (view_system from))) };
}

impl Feeds<Copying> for Copying {
    ghost fits = { λ from to takes gives. tt };
}

fn marks(most: u32) -> Mark {
    Mark { most }
}

fn unmarked() -> MarkedWord {
    MarkedWord { word: 5, marks: 0 }
}

// Any pass on any system: what it answers shows the same.
fn through<P: Pass>(alloc: Global, pass: &P, from: &P::In) -> Result<P::Out, P::Fault>
    requires { P.takes from.now }
    ensures { IfOk result (λ to. SameMeaning
        (P.In.shows from.now) (P.In.declares from.now) (P.Out.shows to) (P.Out.declares to)) }
{
    pass.run(alloc, from)
}

#[test]
fn both_passes_run(rt: HostRuntime) -> Result<(), Fail> {
    let both = Then {
        first: marks(1),
        second: marks(2),
    };
    let to = through(rt.alloc(), &both, &unmarked());
    assert!(rt; matches!(to, Ok(MarkedWord { word: 5, marks: 2 })));
    Ok(())
}

#[test]
fn the_first_refuses(rt: HostRuntime) -> Result<(), Fail> {
    let both = Then {
        first: marks(0),
        second: marks(2),
    };
    let to = both.run(rt.alloc(), &unmarked());
    assert!(rt; matches!(to, Err(ThenFault::First(5))));
    Ok(())
}

#[test]
fn the_second_refuses_what_the_first_gives(rt: HostRuntime) -> Result<(), Fail> {
    let both = Then {
        first: marks(1),
        second: marks(1),
    };
    let to = both.run(rt.alloc(), &unmarked());
    assert!(rt; matches!(to, Err(ThenFault::Second(5))));
    Ok(())
}

fn three(first: u32, second: u32, third: u32) -> Then<Then<Mark, Mark>, Mark> {
    let two = Then {
        first: marks(first),
        second: marks(second),
    };
    Then {
        first: two,
        second: marks(third),
    }
}

#[test]
fn two_passes_feed_a_third(rt: HostRuntime) -> Result<(), Fail> {
    let alloc = rt.alloc();
    let all = three(1, 2, 3).run(alloc, &unmarked());
    assert!(rt; matches!(all, Ok(MarkedWord { word: 5, marks: 3 })));
    let second = three(1, 1, 3).run(alloc, &unmarked());
    assert!(rt; matches!(second, Err(ThenFault::First(ThenFault::Second(5)))));
    let third = three(1, 2, 2).run(alloc, &unmarked());
    assert!(rt; matches!(third, Err(ThenFault::Second(5))));
    Ok(())
}

// The identity on one index.
fn identity() -> Map {
    scaled(1, 0)
}

// {i | 0<=i<=2}
fn three_points(alloc: Global) -> Result<Poly, Memory> {
    set(alloc, 1, &[([1, 0, 0, 0], 0), ([-1, 0, 0, 0], 2)])
}

fn read(alloc: Global) -> Result<Box<Tree>, Memory> {
    let tree = Tree::Ref {
        var: 0,
        map: identity(),
    };
    Ok(Box::new(alloc, tree)?)
}

fn number(alloc: Global, bits: u64) -> Result<Box<Tree>, Memory> {
    Ok(Box::new(alloc, Tree::Const(Word { bits }))?)
}

// min(X[i], 3)
fn least(alloc: Global) -> Result<Box<Tree>, Memory> {
    let left = read(alloc)?;
    let right = number(alloc, 3)?;
    let tree = Tree::Binary {
        sign: Sign::Min,
        left,
        right,
    };
    Ok(Box::new(alloc, tree)?)
}

// if X[i] < 1 then min(X[i], 3) else X[i]
fn chosen(alloc: Global) -> Result<Tree, Memory> {
    let left = read(alloc)?;
    let right = number(alloc, 1)?;
    let yes = least(alloc)?;
    let no = read(alloc)?;
    Ok(Tree::Choose {
        left,
        compare: Relation::Less,
        right,
        yes,
        no,
    })
}

// The tree inside its domain.
fn inside(alloc: Global, tree: Tree) -> Result<Box<Tree>, Memory> {
    let body = Box::new(alloc, tree)?;
    let domain = three_points(alloc)?;
    Ok(Box::new(alloc, Tree::Restrict { domain, body })?)
}

// The same under a dependence.
fn moved(alloc: Global, tree: Tree) -> Result<Tree, Memory> {
    let body = inside(alloc, tree)?;
    Ok(Tree::Depend {
        map: identity(),
        body,
    })
}

fn reduced(alloc: Global) -> Result<Tree, Memory> {
    Ok(Tree::Reduce {
        op: Op::Max,
        map: Map {
            from: 2,
            rows: Rows::from_slice(&[form([1, 0, 0, 0], 0)]),
        },
        body: number(alloc, 7)?,
        set: set(alloc, 2, &[([1, -1, 0, 0], -1)])?,
    })
}

fn picked(alloc: Global) -> Result<Tree, Memory> {
    let mut choices = List::new(alloc);
    choices.push(Choice {
        set: three_points(alloc)?,
        map: identity(),
    })?;
    Ok(Tree::Pick {
        var: 2,
        choices,
        otherwise: Word { bits: 9 },
    })
}

fn moved_choice(alloc: Global) -> Result<Tree, Memory> {
    let tree = chosen(alloc)?;
    moved(alloc, tree)
}

fn push_others(alloc: Global, branches: &mut List<Tree>) -> Result<(), Memory> {
    branches.push(reduced(alloc)?)?;
    branches.push(picked(alloc)?)?;
    Ok(())
}

// A tree of each form.
fn branches(alloc: Global) -> Result<List<Tree>, Memory> {
    let mut branches = List::new(alloc);
    branches.push(moved_choice(alloc)?)?;
    push_others(alloc, &mut branches)?;
    Ok(branches)
}

// Appends a piece whose tree has each form.
fn push_piece(alloc: Global, pieces: &mut List<Piece>) -> Result<(), Memory> {
    let domain = three_points(alloc)?;
    let branches = branches(alloc)?;
    pieces.push(Piece {
        domain,
        tree: Tree::Case { branches },
    })?;
    Ok(())
}

// A variable without a piece.
fn variable(alloc: Global, width: Width, name: &str, kind: Kind) -> Result<Var, Memory> {
    let name = Name::new(alloc, name)?;
    let domain = three_points(alloc)?;
    Ok(Var {
        name,
        kind,
        width,
        domain,
        pieces: List::new(alloc),
    })
}

fn output(alloc: Global, width: Width) -> Result<Var, Memory> {
    let mut var = variable(alloc, width, "Y", Kind::Output)?;
    push_piece(alloc, &mut var.pieces)?;
    Ok(var)
}

// One variable of each kind; the output has a piece.
fn each_form(alloc: Global, width: Width) -> Result<Flat, Memory> {
    let mut vars = List::new(alloc);
    vars.push(variable(alloc, width, "X", Kind::Input)?)?;
    vars.push(output(alloc, width)?)?;
    vars.push(variable(alloc, width, "Y#1", Kind::Partial)?)?;
    Ok(Flat { width, vars })
}

// Both are shown as one text, which is long.
fn assert_same(rt: &impl Abort, alloc: Global, from: &Flat, to: &Flat) -> Result<(), Fail> {
    let told = format!(in alloc; "{from:?}")?;
    let copied = format!(in alloc; "{to:?}")?;
    assert!(rt; told.len() > 500);
    assert_eq!(rt; told.as_str(), copied.as_str());
    Ok(())
}

const TWICE: Then<Copying, Copying> = Then {
    first: Copying,
    second: Copying,
};

#[test]
fn a_flat_system_goes_through_two_passes(rt: HostRuntime) -> Result<(), Fail> {
    let alloc = rt.alloc();
    let width = Width::new(8).ok_or("8 is a width")?;
    let from = each_form(alloc, width)?;
    match through(alloc, &TWICE, &from) {
        Ok(to) => assert_same(&rt, alloc, &from, &to),
        Err(_) => Err(Fail::new("refused with ample memory")),
    }
}
