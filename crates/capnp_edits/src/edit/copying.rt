//! Edits that copy the value of another message's root.
ghost use Rattle.std.specs.Prelude.{◌≡◌, IsOk, IfOk, IfErr};
ghost use Rattle.capnp_builders.specs.Building.{built, calling, IsThere};
ghost use Rattle.capnp_edits.specs.declared.edit.path.PathEnd.TheVariants.{Pointer as AtPointer};
ghost use Rattle.capnp_edits.specs.declared.edit.tasks.Task.TheVariants.{CopyRoot};
ghost use Rattle.capnp_edits.specs.Sources.{HasRoot, IsRootless, once_at_root, root_of};
ghost use Rattle.capnp_readers.specs.Readers.{read_by};
ghost use Rattle.capnp_edits.specs.Edits.{refusal_of, place_of, refusals_after};
ghost use Rattle.capnp_edits.specs.Steps.{FitsAt, CopiesWhole, DoesThere};

use crate::edit::Source;
use capnp_arena::arena::{BuilderArena, ReaderArena, ReaderArenaImpl, SegmentArray};
use capnp_builders::builders::PointerBuilder;
use capnp_readers::readers::PointerReader;
use capnp_words::error::ErrorKind;
use capnp_words::read_limiter::ReadLimiter;
use capnp_words::wire_pointer::ElementSize;

/// What the root of a source has to lead to.
#[derive(Clone, Copy)]
pub(crate) enum Wanted {
    /// Anything.
    Value,
    /// A struct.
    Struct,
    /// A list.
    List,
}

/// A copy to make of the value of another message's root.
#[derive(Clone, Copy)]
pub(crate) struct Copying<'a> {
    /// The other message.
    pub(crate) source: Source<'a>,
    /// What the root of `source` has to lead to.
    pub(crate) wanted: Wanted,
    /// Whether the copy is in canonical form.
    pub(crate) canonicalize: bool,
}

/// A reader of a pointer in another message.
pub(crate) type SourceReader<'a> = PointerReader<'a, ReaderArenaImpl<SegmentArray<'a>>>;

/// Returns the root of another message, and the limiter for reading that message, which is already
/// charged for the root's word.
pub(crate) fn read_source_root<'a>(
    source: Source<'a>,
) -> Result<(SourceReader<'a>, ReadLimiter), ErrorKind>
    ensures found { IfOk result (λ r. HasRoot source.entry
        × (read_by ⟦<ReaderArenaImpl<SegmentArray<'a>> as ReaderArena>⟧ r.0 ≡ root_of source.entry)
        × (r.1 ≡ once_at_root source.entry)) }
    ensures refused { IfErr result (IsRootless source.entry) }
{
    let mut lim = ReadLimiter::new(source.budget);
    let root = PointerReader::get_root_from_arena(source.arena, &mut lim)?;
    Ok((root, lim))
}

/// Makes the copy that `copying` describes, at `pointer`.
pub(crate) fn copy_root<A: BuilderArena>(
    pointer: &mut PointerBuilder<'_, A>,
    copying: Copying<'_>,
) -> Result<(), ErrorKind>
    requires { IsThere (built A.view pointer.old) }
    ensures done { DoesThere (A.view pointer.old.arena.now) (A.view pointer.new.arena.now)
        (AtPointer (place_of pointer.old)) (CopyRoot copying.entry) (refusal_of result) }
    ensures counted { (A.view pointer.new.arena.now).refusals
        ≡ refusals_after (refusal_of result) (A.view pointer.old.arena.now).refusals }
    ensures taken { CopiesWhole (calling A.view pointer.old pointer.new) copying.entry
        (refusal_of result) }
    ensures fits { FitsAt (A.view pointer.old.arena.now) (CopyRoot copying.entry)
        (AtPointer (place_of pointer.old)) → IsOk result }
    ensures same { pointer.new.arena.ghost_name ≡ pointer.old.arena.ghost_name }
{
    let (root, mut lim) = read_source_root(copying.source)?;
    match copying.wanted {
        Wanted::Value => pointer.copy_from(root, &mut lim, copying.canonicalize),
        Wanted::Struct => {
            let value = root.get_struct(&mut lim, None)?;
            pointer.set_struct(&value, &mut lim, copying.canonicalize)
        }
        Wanted::List => {
            let list = root.get_list(&mut lim, ElementSize::Void, None)?;
            pointer.set_list(&list, &mut lim, copying.canonicalize)
        }
    }
}
