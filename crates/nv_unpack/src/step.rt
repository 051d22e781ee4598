//! The steps in which items are unpacked.

ghost use Rattle.std.specs.Prelude.{◌≡◌, ◌++◌, map, IfOk, OnOk};
ghost use Rattle.std.specs.List.{filter};
ghost use Rattle.nv_unpack.specs.declared.step.Step.TheVariants.{Make, SetAttributes};
ghost use Rattle.nv_unpack.specs.Steps.{is_directory_item, item_in, steps_of};

use nv_untar::{Item, ItemKind};
use std::alloc::{AllocError, Global};

/// A step.
#[derive(Clone, Copy)]
pub(crate) enum Step<'a> {
    /// Make what an item is, where it isn't there.
    Make(Item<'a>),
    /// Give a directory the attributes of its item.
    SetAttributes(Item<'a>),
}

impl<'a> Step<'a> {
    /// Its item.
    pub(crate) fn item(self) -> Item<'a>
        ensures { result ≡ item_in self.entry }
    {
        match self {
            Step::Make(item) | Step::SetAttributes(item) => item,
        }
    }
}

/// The steps for items. Errors: `AllocError` where a growth was refused.
pub(crate) fn steps_of<'a>(alloc: Global, items: &[Item<'a>]) -> Result<Vec<Step<'a>>, AllocError>
    ensures { IfOk result (λ steps. steps.items ≡ steps_of items.now) }
{
    let mut steps = Vec::new(alloc);
    push_made(&mut steps, items)?;
    push_attributes(&mut steps, items)?;
    Ok(steps)
}

fn push_made<'a>(steps: &mut Vec<Step<'a>>, items: &[Item<'a>]) -> Result<(), AllocError>
    ensures { OnOk result (steps.new.items ≡ steps.old.items ++ map Make items.now) }
{
    for item in items {
        steps.push(Step::Make(*item))?;
    }
    Ok(())
}

fn push_attributes<'a>(steps: &mut Vec<Step<'a>>, items: &[Item<'a>]) -> Result<(), AllocError>
    ensures { OnOk result (steps.new.items ≡ steps.old.items ++ map SetAttributes (filter is_directory_item items.now)) }
{
    for item in items {
        if item.kind == ItemKind::Directory {
            steps.push(Step::SetAttributes(*item))?;
        }
    }
    Ok(())
}
