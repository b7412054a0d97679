//! The lines of `list`.
ghost use Rattle.std.specs.Prelude.{◌≡◌, ◌++◌, [], slice_get, OnOk};
ghost use Rattle.std.specs.List.{enumerate_from, flat_map};
ghost use Rattle.std.specs.Option.{option_map_or};
ghost use Rattle.object_store.specs.Contents.{catalog_of};
ghost use Rattle.line_meaning.specs.Reply.{class_line, listing, region_line};
ghost use Rattle.reply_text.specs.Begins.{Begins};

use crate::database::Database;
use object_store::{ClassId, Store};
use polygon::Regions;
use reply_text::{push_class, push_clock, push_region};
use std::alloc::AllocError;

/// Writes the clock, the classes and the regions. On error `out` still begins with its old contents.
#[tactic(auto, using(reply_text::proofs::BeginLemmas::begins_through))]
pub(crate) fn push_listing(database: &Database, out: &mut Vec<u8>) -> Result<(), AllocError>
    ensures ok { OnOk result (out.new.items ≡ out.old.items ++ listing database.now.clock (catalog_of database.now.store) database.now.regions) }
    ensures begins { Begins out.old.items out.new.items }
{
    push_clock(database.clock, out)?;
    push_classes(&database.store, out)?;
    push_regions(&database.regions, out)
}

/// Writes the line of the class of a number, if there is one.
fn push_class_of(store: &Store, number: ClassId, out: &mut Vec<u8>) -> Result<(), AllocError>
    ensures ok { OnOk result (out.new.items ≡ out.old.items
        ++ option_map_or (λ k. class_line (catalog_of store.now) (number, k)) (slice_get store.now.classes number) []) }
    ensures begins { Begins out.old.items out.new.items }
{
    match store.schema().class(number) {
        Some(class) => {
            let count = store.class_names(number).len() as u64;
            push_class(class.name(), class.capacity(), count, out)
        }
        None => Ok(()),
    }
}

fn push_classes(store: &Store, out: &mut Vec<u8>) -> Result<(), AllocError>
    ensures ok { OnOk result (out.new.items ≡ out.old.items ++ flat_map (class_line (catalog_of store.now)) (enumerate_from 0 store.now.classes)) }
    ensures begins { Begins out.old.items out.new.items }
{
    'classes: for number in 0..store.schema().count() {
        push_class_of(store, number, out)?;
    }
    Ok(())
}

/// Writes the line of the region of a number, if there is one.
fn push_region_of(regions: &Regions, number: u32, out: &mut Vec<u8>) -> Result<(), AllocError>
    ensures ok { OnOk result (out.new.items ≡ out.old.items ++ option_map_or region_line (slice_get regions.now number) []) }
    ensures begins { Begins out.old.items out.new.items }
{
    match (regions.name_of(number), regions.get(number)) {
        (Some(name), Some(polygon)) => push_region(name, polygon.len() as u64, out),
        _ => Ok(()),
    }
}

fn push_regions(regions: &Regions, out: &mut Vec<u8>) -> Result<(), AllocError>
    ensures ok { OnOk result (out.new.items ≡ out.old.items ++ flat_map region_line regions.now) }
    ensures begins { Begins out.old.items out.new.items }
{
    'regions: for number in 0..regions.count() {
        push_region_of(regions, number, out)?;
    }
    Ok(())
}
