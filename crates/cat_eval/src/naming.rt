//! Names with what they stand for.

ghost use Rattle.std.specs.Prelude.{◌≡◌};
ghost use Rattle.cat_eval.specs.Lowered.{held_in, index_in};

use wb_text::Name;

/// What a name is bound to.
#[derive(Clone, Copy)]
pub enum Held {
    /// The value of the binding of this number.
    Value(usize),
    /// The function of this number.
    Function(usize),
}

/// A name that is bound.
#[derive(Clone, Copy)]
pub struct BoundName<'m> {
    pub name: &'m Name,
    pub held: Held,
}

/// What the latest of these names that is this one is bound to.
#[tactic(auto, using(crate::proofs::Looked::held_is, crate::proofs::Looked::held_stays))]
pub fn holding<'m>(names: &[BoundName<'m>], name: &Name) -> Option<Held>
    ensures { result ≡ held_in names.now name.now }
{
    let mut found = None;
    for bound in names {
        if *bound.name == *name {
            found = Some(bound.held);
        }
    }
    found
}

/// The number of the latest of these parameters that has this name.
#[tactic(auto, using(crate::proofs::Looked::index_is, crate::proofs::Looked::index_stays))]
pub fn parameter(parameters: &[Name], name: &Name) -> Option<usize>
    ensures { result ≡ index_in parameters.now name.now }
{
    let mut found = None;
    for (number, parameter) in parameters.iter().enumerate() {
        if *parameter == *name {
            found = Some(number);
        }
    }
    found
}
