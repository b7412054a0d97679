//! An attribute of a class.
ghost use Rattle.std.specs.Prelude.{◌≡◌};
ghost use Rattle.object_store.specs.Contents.{catalog_of};
ghost use Rattle.line_meaning.specs.Indexed.{column, varies};
ghost use Rattle.object_rows.specs.Columns.{is_dynamic};

use fixed_point::Word;
use motion::AttrKind;
use object_store::{ClassId, Schema, Store};
use std::marker::Model;

/// The number of a class, and the place of an attribute among its attributes.
#[derive(Clone, Copy)]
pub(crate) struct Column {
    pub(crate) class: ClassId,
    pub(crate) place: usize,
}

impl Model for Column {
    ghost use Rattle.line_meaning.specs.Indexed.{IndexedColumn};

    ghost Value = { IndexedColumn };

    ghost view = { λ a. record { class = a.class; place = a.place } };

    ghost inverse = { λ c. record { class = c.class; place = c.place } };
}

/// The attribute of these names, None where the class isn't there or hasn't it.
pub(crate) fn column_of(store: &Store, class: &Word, attr: &Word) -> Option<Column>
    ensures { result ≡ column (catalog_of store.now) class.now attr.now }
{
    let number = store.schema().class_of(class)?;
    let place = store.schema().class(number)?.attr_of(attr)?;
    Some(Column {
        class: number,
        place,
    })
}

/// Whether the values of an attribute are functions of time.
pub(crate) fn varies(schema: &Schema, at: Column) -> bool
    ensures { result ≡ varies schema.now at }
{
    match schema.class(at.class) {
        Some(class) => match class.attrs().get(at.place) {
            Some(attr) => is_dynamic(attr.kind),
            None => false,
        },
        None => false,
    }
}

fn is_dynamic(kind: AttrKind) -> bool
    ensures { result ≡ is_dynamic kind }
{
    match kind {
        AttrKind::Dyn => true,
        _ => false,
    }
}
