//! Laws of the pointer at which a reading stops. Each function does nothing: its contract is the law,
//! proved for all messages and limits.

ghost use Rattle.std.specs.Prelude.{◌≡◌, ◌↔◌, Bool, true, None, Some, Ok, Err};
ghost use Rattle.capnp_words.specs.declared.error.ErrorKind.{ErrorKind};
ghost use Rattle.capnp_words.specs.Meter.{Meter};
ghost use Rattle.capnp_format.specs.Segments.{Segments};
ghost use Rattle.capnp_format.specs.Tree.{Tree};
ghost use Rattle.capnp_arena.specs.declared.arena.reader_arena_impl.ReaderOptions.{ReaderOptions};
ghost use Rattle.capnp_pointers.specs.Reading.{Reading};
ghost use Rattle.capnp_pointers.specs.Values.{value};
ghost use Rattle.capnp_messages.specs.Commands.{RefusesAnswer};
ghost use Rattle.capnp_messages.specs.declared.messages.command.Command.{Command};
ghost use Rattle.capnp_refusals.specs.RefusedPointers.{IsNameFor, has_pointer, refused_pointer};
ghost use Rattle.capnp_refusals.specs.Search.{form_for, search_place, of_values};
ghost use Rattle.capnp_refusals.specs.declared.refusals.search.RefusedPointer.{RefusedPointer};

/// A search finds a pointer exactly if reading the value is refused; then the refusal is the
/// pointer's (`refused`). It finds none exactly if the value is read (`read`). It leaves the limiter
/// that reading the value leaves.
pub fn refusals_of_values()
    ensures refused { (c : Bool) (r : Reading) (m m' : Meter) (k : ErrorKind)
        → (value (form_for c) r m ≡ (Err k, m'))
        ↔ ((p : RefusedPointer) × (p.refusal ≡ k)
        × (search_place (of_values c) r m ≡ (Ok (Some p), m'))) }
    ensures read { (c : Bool) (r : Reading) (m m' : Meter)
        → ((t : Tree) × (value (form_for c) r m ≡ (Ok t, m')))
        ↔ (search_place (of_values c) r m ≡ (Ok None, m')) }
{}

/// If a command is refused, but not with `AllocationFailed` or `MessageTooLarge`, it stops at a
/// pointer, whose object is refused with the command's refusal. A test names a list that is nested
/// too deeply in a way of its own.
pub fn refusals_of_commands()
    ensures { (command : Command) (S : Segments) (limits : ReaderOptions) (k : ErrorKind)
        → RefusesAnswer command limits S k → has_pointer k ≡ true
        → (p : RefusedPointer) × (refused_pointer command S limits ≡ Some p)
        × IsNameFor command p.refusal k }
{}
