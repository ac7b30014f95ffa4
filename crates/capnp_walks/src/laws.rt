//! Laws of the list of objects. Each function does nothing: its contract is the law, proved for all
//! messages and limits.

ghost use Rattle.std.specs.Prelude.{◌≡◌, ◌≤◌, ℕ, Some, length, map};
ghost use Rattle.capnp_format.specs.Segments.{Segments};
ghost use Rattle.capnp_arena.specs.declared.arena.reader_arena_impl.ReaderOptions.{ReaderOptions};
ghost use Rattle.capnp_messages.specs.Messages.{IsReadable};
ghost use Rattle.capnp_messages.specs.declared.messages.command.Command.TheVariants.{Validate};
ghost use Rattle.capnp_refusals.specs.RefusedPointers.{refused_pointer};
ghost use Rattle.capnp_walks.specs.Figures.{figures, objects_of};
ghost use Rattle.capnp_walks.specs.Walks.{walk_message};

/// If the root of a message means a value within the limits, the list has all objects of that
/// value, each before its children, and the children in order (`listed`). A walk stops exactly if
/// the message isn't valid, at the pointer at which its validation stops (`stops`). With a
/// traversal limit of x words, the list has at most x objects (`few`).
pub fn objects_listed()
    ensures listed { (S : Segments) (limits : ReaderOptions) (readable : IsReadable S limits)
        → map figures (walk_message S limits).0 ≡ objects_of readable.value }
    ensures stops { (S : Segments) (limits : ReaderOptions)
        → (walk_message S limits).1 ≡ refused_pointer Validate S limits }
    ensures few { (S : Segments) (limits : ReaderOptions) (x : ℕ)
        → limits.traversal_limit_in_words ≡ Some x → length (walk_message S limits).0 ≤ x }
{}
