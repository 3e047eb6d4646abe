ghost use Rattle.std.specs.Prelude.{◌≡◌};

use crate::text::Text;
use basis::Items;

/// A name in a program, or the text by which a page is asked for.
#[derive(Drop)]
pub struct Name {
    pub at: usize,
    pub text: Text,
}

/// Names in a program, in order.
pub type Names = Items<Name>;
