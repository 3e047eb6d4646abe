ghost use Rattle.std.specs.Prelude.{◌≡◌};
ghost use Rattle.script_check.specs.Counts.{counts_of};

use script_tree::syntax::declaration::Declaration;

/// How many declarations of each sort a program has.
#[derive(Clone, Copy, PartialEq, Eq)]
pub struct Counts {
    pub pages: usize,
    pub functions: usize,
    pub stores: usize,
    pub tables: usize,
}

pub(crate) fn counts_of(declarations: &[Declaration]) -> Counts
    ensures { result ≡ counts_of declarations.now }
{
    let mut counts = Counts {
        pages: 0,
        functions: 0,
        stores: 0,
        tables: 0,
    };
    for declaration in declarations {
        match declaration {
            Declaration::Store { .. } => counts.stores += 1,
            Declaration::Table { .. } => counts.tables += 1,
            Declaration::Function { .. } => counts.functions += 1,
            Declaration::Page { .. } => counts.pages += 1,
        }
    }
    counts
}
