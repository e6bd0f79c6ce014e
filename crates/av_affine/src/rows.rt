ghost use Rattle.std.specs.Prelude.{◌≡◌, ◌≤◌, length};

use crate::Form;
use arrayvec::ArrayVec;
use std::marker::Model;

/// The forms of a map, at most four. Contracts see their list.
#[derive(Clone, Debug, PartialEq, Eq, Drop)]
pub struct Rows {
    forms: ArrayVec<Form, 4>,
}

impl Model for Rows {
    ghost use Rattle.std.specs.Prelude.{List as Items};
    ghost use Rattle.av_affine.specs.declared.form.Form.{Form as Item};

    ghost Value = { Items Item };

    ghost view = { λ r. r.forms.items };

    ghost inverse = { λ v. record { forms = record { items = v } } };
}

impl Rows {
    /// The rows with these forms.
    pub fn from_slice(forms: &[Form]) -> Rows
        requires { length forms.now ≤ 4 }
        ensures { result ≡ forms.now }
    {
        let mut rows = ArrayVec::new();
        for form in forms {
            rows.push(*form);
        }
        Rows { forms: rows }
    }

    /// The forms, in order.
    pub fn as_slice(&self) -> &[Form]
        ensures value { result.now ≡ self.now }
        ensures fits { length result.now ≤ 4 }
    {
        self.forms.as_slice()
    }
}
