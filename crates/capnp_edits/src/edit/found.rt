//! Edits that look for a struct, a list, a text or data.
ghost use Rattle.std.specs.Prelude.{◌≡◌, true};
ghost use Rattle.capnp_builders.specs.Building.{built, IsThere};
ghost use Rattle.capnp_edits.specs.declared.edit.tasks.Task.TheVariants.{Search};
ghost use Rattle.capnp_edits.specs.Tasks.{is_in_range};
ghost use Rattle.capnp_edits.specs.Edits.{refusal_of};
ghost use Rattle.capnp_edits.specs.Steps.{IsDoneBy};

use crate::edit::pointer::discard_value;
use crate::edit::tasks::Sought;
use capnp_arena::arena::BuilderArena;
use capnp_builders::builders::PointerBuilder;
use capnp_words::error::ErrorKind;

/// Looks for `sought` at `pointer`, by the call of `PointerBuilder` that finds such a value.
pub(crate) fn find_value<A: BuilderArena>(
    pointer: &mut PointerBuilder<'_, A>,
    sought: Sought,
    default: Option<&[u8]>,
) -> Result<(), ErrorKind>
    requires there { IsThere (built A.view pointer.old) }
    requires range { is_in_range (Search sought default) ≡ true }
    ensures { IsDoneBy A.view pointer.old pointer.new (Search sought default.entry)
        (refusal_of result) }
{
    match sought {
        Sought::Struct(size) => discard_value(pointer.get_struct_place(size, default)),
        Sought::List(size) => discard_value(pointer.get_list_place(size, default)),
        Sought::StructList(size) => discard_value(pointer.get_struct_list_place(size, default)),
        Sought::Text => discard_value(pointer.get_text_place(default)),
        Sought::Data => discard_value(pointer.get_data_place(default)),
    }
}
