//! Does edits at a pointer.
ghost use Rattle.std.specs.Prelude.{◌≡◌, true, None};
ghost use Rattle.capnp_format.specs.Segments.{IsPlace};
ghost use Rattle.capnp_builders.specs.Building.{built, IsThere};
ghost use Rattle.capnp_edits.specs.declared.edit.path.PathEnd.TheVariants.{Pointer as AtPointer};
ghost use Rattle.capnp_edits.specs.declared.edit.tasks.Task.TheVariants.{Make, Point};
ghost use Rattle.capnp_edits.specs.Tasks.{is_in_range};
ghost use Rattle.capnp_edits.specs.Edits.{refusal_of};
ghost use Rattle.capnp_edits.specs.Steps.{IsDoneAt, IsDoneBy};

use crate::edit::copying::copy_root;
use crate::edit::elements::edit_part;
use crate::edit::filling::change_struct;
use crate::edit::found::find_value;
use crate::edit::tasks::{NewObject, Task};
use capnp_arena::arena::BuilderArena;
use capnp_builders::builders::PointerBuilder;
use capnp_in_place::existing;
use capnp_readers::readers::PointerPlace;
use capnp_words::error::ErrorKind;
use capnp_words::wire_pointer::ElementSize;

/// Returns `outcome` without its value.
pub(crate) fn discard_value<T: Drop>(outcome: Result<T, ErrorKind>) -> Result<(), ErrorKind>
    ensures { refusal_of result ≡ refusal_of outcome }
{
    outcome?;
    Ok(())
}

/// Makes `pointer` lead to the new object `object`.
fn init_object<A: BuilderArena>(
    pointer: &mut PointerBuilder<'_, A>,
    object: NewObject<'_>,
) -> Result<(), ErrorKind>
    requires there { IsThere (built A.view pointer.old) }
    requires range { is_in_range (Make object) ≡ true }
    ensures { IsDoneBy A.view pointer.old pointer.new (Make object.entry) (refusal_of result) }
{
    match object {
        NewObject::ZeroStruct(size) => discard_value(pointer.init_struct_place(size)),
        NewObject::ZeroList(size, count) => discard_value(pointer.init_list_place(size, count)),
        NewObject::ZeroStructs(count, size) => discard_value(pointer.init_struct_list_place(
            count, size,
        )),
        NewObject::ZeroText(size) => discard_value(pointer.init_list_place(
            ElementSize::Byte,
            size + 1,
        )),
        NewObject::Text(bytes) => pointer.set_text(bytes),
        NewObject::Data(bytes) => pointer.set_data(bytes),
    }
}

/// Makes `pointer` lead to the capability with the index `capability`; if `capability` is `None`,
/// makes `pointer` null.
fn set_capability_or_null<A: BuilderArena>(
    pointer: &mut PointerBuilder<'_, A>,
    capability: Option<u32>,
)
    requires { IsThere (built A.view pointer.old) }
    ensures { IsDoneBy A.view pointer.old pointer.new (Point capability) None }
{
    match capability {
        Some(index) => pointer.set_capability(index),
        None => pointer.clear(),
    }
}

/// Does `task` at the pointer at `place`.
pub(crate) fn edit_pointer<A: BuilderArena>(
    arena: &mut A,
    place: PointerPlace,
    task: Task<'_>,
) -> Result<(), ErrorKind>
    requires there { IsPlace (A.view arena.old).words place.segment place.word }
    requires range { is_in_range task ≡ true }
    ensures { IsDoneAt (A.view arena.old) (A.view arena.new) (AtPointer place) task.entry
        (refusal_of result) }
{
    let mut pointer = PointerBuilder {
        arena,
        segment: place.segment,
        at: place.word,
    };
    match task {
        Task::Make(object) => init_object(&mut pointer, object),
        Task::Point(capability) => {
            set_capability_or_null(&mut pointer, capability);
            Ok(())
        }
        Task::InStruct(change) => {
            match existing::get_struct(&*pointer.arena, place.segment, place.word) {
                Some(parent) => change_struct(pointer.arena, parent, change),
                None => Err(ErrorKind::NoSuchPlace),
            }
        }
        Task::Write(part) => edit_part(pointer.arena, place, part),
        Task::Search(sought, default) => find_value(&mut pointer, sought, default),
        Task::CopyRoot(copying) => copy_root(&mut pointer, copying),
    }
}
