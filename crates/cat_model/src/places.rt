//! Places of parameters.

ghost use Rattle.std.specs.Prelude.{◌≡◌, map, IfOk};
ghost use Rattle.cat_model.specs.Classing.{place_in};

use std::alloc::{AllocError, Global};
use wb_text::Name;

/// The place of the last name that is this one.
pub fn place_of<'n>(names: &[&'n Name], name: &Name) -> Option<usize>
    ensures { result ≡ place_in (map (λ x. x.now) names.now) name.now }
{
    let mut left = names.len();
    while 0 < left {
        left -= 1;
        if *names[left] == *name {
            return Some(left);
        }
    }
    None
}

/// The names one by one.
pub fn each<'n>(alloc: Global, names: &'n [Name]) -> Result<Vec<&'n Name>, AllocError>
    ensures { IfOk result (λ v. map (λ x. x.now) v.items ≡ names.now) }
{
    let mut each = Vec::new(alloc);
    for name in names {
        each.push(name)?;
    }
    Ok(each)
}
