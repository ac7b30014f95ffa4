//! Edits of a struct: writes to its data section, and copies of the content of another message's
//! struct.
ghost use Rattle.std.specs.Prelude.{◌≡◌, ◌+◌, None, true, IsOk, IfSome};
ghost use Rattle.capnp_in_place.specs.Existing.{IsStructInside};
ghost use Rattle.capnp_readers.specs.Readers.{IsStructPlace};
ghost use Rattle.capnp_builders.specs.Places.{struct_place};
ghost use Rattle.capnp_edits.specs.declared.edit.path.PathEnd.TheVariants.{Element as AtElement};
ghost use Rattle.capnp_edits.specs.declared.edit.tasks.StructChange.TheVariants.{Content};
ghost use Rattle.capnp_edits.specs.declared.edit.tasks.Task.TheVariants.{InStruct};
ghost use Rattle.capnp_edits.specs.Tasks.{is_in_range};
ghost use Rattle.capnp_edits.specs.Edits.{refusal_of, refusals_after};
ghost use Rattle.capnp_edits.specs.Steps.{FillsAt, FitsAt, IsDoneAt};

use crate::edit::Source;
use crate::edit::copying::read_source_root;
use crate::edit::fields::put_field;
use crate::edit::path::has_words;
use crate::edit::tasks::StructChange;
use capnp_arena::arena::BuilderArena;
use capnp_builders::builders::StructBuilder;
use capnp_builders::builders::places::struct_place;
use capnp_in_place::existing::ExistingStruct;
use capnp_readers::readers::StructPlace;
use capnp_words::error::ErrorKind;

/// Returns where the struct `parent` is; `None` if the struct has no words.
fn place_of_struct<A: BuilderArena>(arena: &A, parent: ExistingStruct) -> Option<StructPlace>
    requires { IsStructInside (A.view arena.now).words parent }
    ensures empty { result ≡ None → parent.size.data_words + parent.size.pointers ≡ 0 }
    ensures place { IfSome result (λ place. place ≡ struct_place parent) }
    ensures inside { IfSome result (IsStructPlace (A.view arena.now).words) }
{
    let end = u64::from(parent.start) + u64::from(parent.size.total());
    if parent.size.total() == 0 || !has_words(arena, parent.segment, end) {
        return None;
    }
    Some(struct_place(parent))
}

/// Replaces the data and the pointers of the struct `parent` by those of the struct that the root
/// of `source`, another message, leads to.
///
/// A null root counts as a struct without words: afterwards `parent` has only zeros and null
/// pointers. If the root leads to something else than a struct, or can't be read, refuses and
/// changes nothing. If the copy of a pointer is refused, the data and the pointers before that one
/// are copied, and that one and those after it are null. In the contract, `AtElement parent` is the
/// struct `parent`, whether it is an element of a list or a pointer leads to it.
pub(crate) fn copy_content<A: BuilderArena>(
    arena: &mut A,
    parent: ExistingStruct,
    source: Source<'_>,
) -> Result<(), ErrorKind>
    requires { IsStructInside (A.view arena.old).words parent }
    ensures filled { FillsAt (A.view arena.old) (A.view arena.new) parent
        source.entry (refusal_of result) }
    ensures counted { (A.view arena.new).refusals ≡ refusals_after (refusal_of result)
        (A.view arena.old).refusals }
    ensures fits { FitsAt (A.view arena.old) (InStruct (Content source.entry)) (AtElement parent)
        → IsOk result }
{
    let (root, mut lim) = read_source_root(source)?;
    let value = root.get_struct(&mut lim, None)?;
    match place_of_struct(&*arena, parent) {
        Some(place) => {
            let mut builder = StructBuilder { arena, place };
            builder.copy_content_from(&value, &mut lim)
        }
        None => Ok(()),
    }
}

/// Does `change` to the struct `parent`.
pub(crate) fn change_struct<A: BuilderArena>(
    arena: &mut A,
    parent: ExistingStruct,
    change: StructChange<'_>,
) -> Result<(), ErrorKind>
    requires inside { IsStructInside (A.view arena.old).words parent }
    requires range { is_in_range (InStruct change) ≡ true }
    ensures { IsDoneAt (A.view arena.old) (A.view arena.new) (AtElement parent)
        (InStruct change.entry) (refusal_of result) }
{
    match change {
        StructChange::Bits(number) => put_field(arena, parent, number),
        StructChange::Content(source) => copy_content(arena, parent, source),
    }
}
