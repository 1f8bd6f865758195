//! A model that is being put together.

ghost use Rattle.std.specs.Prelude.{◌≤◌};

use crate::model::FileVersion;
use cat_tree::Item;

/// The items that are put in place so far, the files read, and how many items that counts for.
#[derive(Drop)]
pub struct Draft {
    pub items: Vec<Item>,
    pub files: Vec<FileVersion>,
    pub count: usize,
    ghost few: { count ≤ 4096 },
}
