#![tactic(auto, using(crate::proofs::Least::lower_append, crate::proofs::Least::lower_none))]

ghost use Rattle.std.specs.Prelude.{IfOk};
ghost use Rattle.script_check.specs.Finds.{Notes};
ghost use Rattle.script_check.specs.Least.{IsLeast};
ghost use Rattle.script_check.specs.Passes.{page_pass, bodies_faults, body_faults};

use crate::declared::Declared;
use crate::fault::{CheckFault, CheckFaultKind};
use crate::found::Found;
use crate::scope::Scope;
use crate::statement::check_block;
use script_tree::syntax::declaration::Declaration;
use script_tree::syntax::tree::Tree;
use std::alloc::{AllocError, Global};
use std::collections::BTreeSet;

/// The least fault of a tree, none of a valid one.
pub(crate) fn least_fault(alloc: Global, tree: &Tree) -> Result<Option<CheckFault>, AllocError>
    ensures { IfOk result (IsLeast tree.now) }
{
    let mut found = Found::new();
    let index = Declared::new(alloc, tree, &mut found)?;
    let declarations = tree.declarations.as_slice();
    check_pages(alloc, declarations, &mut found)?;
    check_bodies(alloc, &index, declarations, &mut found)?;
    Ok(found.least)
}

/// Whether no two pages have one text.
fn check_pages(
    alloc: Global,
    declarations: &[Declaration],
    found: &mut Found,
) -> Result<(), AllocError>
    ensures { Notes result (page_pass declarations.now) found.old found.new }
{
    let mut pages = BTreeSet::new(alloc);
    for declaration in declarations {
        if let Declaration::Page { path, .. } = declaration {
            let is_new = pages.insert(path.text.as_bytes())?;
            found.unless(is_new, path.at, CheckFaultKind::PageTwice);
        }
    }
    Ok(())
}

/// The bodies of the functions and of the pages of the program.
fn check_bodies(
    alloc: Global,
    index: &Declared,
    declarations: &[Declaration],
    found: &mut Found,
) -> Result<(), AllocError>
    ensures { Notes result (bodies_faults index.now declarations.now) found.old found.new }
{
    for declaration in declarations {
        check_body(alloc, index, declaration, found)?;
    }
    Ok(())
}

fn check_body(
    alloc: Global,
    index: &Declared,
    declaration: &Declaration,
    found: &mut Found,
) -> Result<(), AllocError>
    ensures { Notes result (body_faults index.now declaration.now) found.old found.new }
{
    let mut scope = Scope::new(alloc);
    match declaration {
        Declaration::Store { .. } | Declaration::Table { .. } => Ok(()),
        Declaration::Function {
            parameters,
            body,
            ..
        } => {
            scope.declare_all(parameters.as_slice(), found)?;
            check_block(index, &mut scope, body.as_slice(), found)
        }
        Declaration::Page { body, .. } => { check_block(index, &mut scope, body.as_slice(), found) }
    }
}
