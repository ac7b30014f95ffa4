//! Laws of reading and refusals. Each function does nothing: its contract is the law, proved for all
//! messages and limits. `specs/Enter.antt` and `specs/Values.antt` have the functions that
//! reading computes, and `specs/Refusals.antt` the definitions with which contracts state a refusal.
//! docs/FORMAT.md explains both in plain words.

mod examples;
mod pointers;

ghost use Rattle.std.specs.Prelude.{◌≡◌, ◌≢◌, ◌⊎◌, ◌↔◌, ◌+◌, ◌≤◌, ℕ, true, Some, Ok, Err, IsOk};
ghost use Rattle.capnp_words.specs.declared.error.ErrorKind.{ErrorKind};
ghost use Rattle.capnp_words.specs.declared.error.ErrorKind.TheVariants.{ReadLimitExceeded};
ghost use Rattle.capnp_words.specs.declared.wire_pointer.PointerType.{PointerType};
ghost use Rattle.capnp_words.specs.Meter.{Meter, Affords};
ghost use Rattle.capnp_format.specs.Segments.{Target};
ghost use Rattle.capnp_format.specs.Word.{kind};
ghost use Rattle.capnp_format.specs.Tree.{Tree, capabilities};
ghost use Rattle.capnp_pointers.specs.declared.object.Expected.{Expected};
ghost use Rattle.capnp_pointers.specs.declared.object.Object.{Object};
ghost use Rattle.capnp_pointers.specs.declared.object.Purpose.{Purpose};
ghost use Rattle.capnp_pointers.specs.declared.object.Purpose.TheVariants.{Value, Size};
ghost use Rattle.capnp_pointers.specs.Enter.{shape, read, object_shape};
ghost use Rattle.capnp_pointers.specs.Expected.{Expectation, expectation, HasExpected, RefusesExpected};
ghost use Rattle.capnp_pointers.specs.Faults.{LeadsTo, Somewhere, Exceeds, HasFault};
ghost use Rattle.capnp_pointers.specs.Measures.{NotMeasured};
ghost use Rattle.capnp_pointers.specs.Objects.{IsObject};
ghost use Rattle.capnp_pointers.specs.Outcomes.{MeansThere, Reads, Entered};
ghost use Rattle.capnp_pointers.specs.Reading.{Reading};
ghost use Rattle.capnp_pointers.specs.Refusals.{CanBeRead, NotRead, Refused, StopsWithin, IsTried};
ghost use Rattle.capnp_pointers.specs.Types.{IsOfType, HasNoType};
ghost use Rattle.capnp_pointers.specs.Values.{value, expect, pointer_type};
ghost use Rattle.capnp_pointers.specs.Wanted.{Form, FollowsTo, AllowsCapabilities};

pub use examples::worked_readings;
pub use pointers::{
    extents_within_limits, one_size_refusal, one_verdict, refused_as_reading,
    refused_as_unexpected, size_of_value, tests_of_places, tests_of_pointers,
    traversals_within_limits, values_have_sizes,
};

/// A demand is a condition for reading an object, and has the name of the refusal that follows if
/// the condition is broken. A reading is refused for one of two reasons: a place that the reading
/// reaches breaks a demand, and the refusal has that demand's name; or a place that the reading
/// reaches charges more words than the limiter has left, and the refusal is `ReadLimitExceeded`
/// (clause `named`). `ReadLimitExceeded` has no other cause (clause `limit`).
pub fn refused_truly()
    ensures named { (form : Form) (r : Reading) (m m' : Meter) (k : ErrorKind)
        → Refused form r m m' k
        → HasFault form r k ⊎ ((k ≡ ReadLimitExceeded) × Somewhere (Exceeds m') r) }
    ensures limit { (form : Form) (r : Reading) (m m' : Meter)
        → Refused form r m m' ReadLimitExceeded → Somewhere (Exceeds m') r }
{}

/// If the reading of a place is refused, the message has no value at that place that `form` accepts
/// and that both the nesting limit and the traversal limit allow.
pub fn refused_rightly()
    ensures { (form : Form) (r : Reading) (m m' : Meter) (k : ErrorKind)
        → Refused form r m m' k → (t : Tree) (c : ℕ) → MeansThere r t c
        → AllowsCapabilities form (capabilities t) → Affords r.charging m c → ⊥ }
{}

/// A refusal has one name and leaves one limiter: those of the first check that fails, in the order
/// of checks. This is so for reading a whole value (`value`), one object (`object`), one object only
/// for its size (`measured`), one object that a call expects to be of some kind (`expected`), and
/// the type of a pointer (`of_type`).
pub fn one_name()
    ensures value { (form : Form) (r : Reading) (m m' m'' : Meter) (k l : ErrorKind)
        → Refused form r m m' k → Refused form r m m'' l → (k ≡ l) × (m' ≡ m'') }
    ensures object { (r : Reading) (m m' m'' : Meter) (k l : ErrorKind)
        → NotRead Value r m m' k → NotRead Value r m m'' l → (k ≡ l) × (m' ≡ m'') }
    ensures measured { (r : Reading) (m m' m'' : Meter) (k l : ErrorKind)
        → NotMeasured r m m' k → NotMeasured r m m'' l → (k ≡ l) × (m' ≡ m'') }
    ensures expected { (e : Expectation) (r : Reading) (m m' m'' : Meter) (k l : ErrorKind)
        → RefusesExpected e r m m' k → RefusesExpected e r m m'' l → (k ≡ l) × (m' ≡ m'') }
    ensures of_type { (r : Reading) (m m' m'' : Meter) (k l : ErrorKind)
        → HasNoType r m m' k → HasNoType r m m'' l → (k ≡ l) × (m' ≡ m'') }
{}

/// Reading a whole value is a function: `value` returns the value with the limiter afterwards
/// (`read`), or the error of the refusal with the limiter afterwards (`refused`).
pub fn values_computed()
    ensures read { (form : Form) (r : Reading) (m m' : Meter) (t : Tree)
        → Reads form r m m' t ↔ (value form r m ≡ (Ok t, m')) }
    ensures refused { (form : Form) (r : Reading) (m m' : Meter) (k : ErrorKind)
        → Refused form r m m' k ↔ (value form r m ≡ (Err k, m')) }
{}

/// Reading one object is a function: `read` returns the object with the limiter afterwards
/// (`object`, or `entered` for a struct or a list at its target), or the error of the refusal with
/// the limiter afterwards (`refused`, or `measured` if only the size is wanted). It returns an
/// object exactly if one can be read (`exactly`).
pub fn objects_computed()
    ensures object { (purpose : Purpose) (r : Reading) (m m' : Meter) (x : Object)
        → IsObject purpose r m m' x → read purpose r m ≡ (Ok (object_shape x), m') }
    ensures entered { (purpose : Purpose) (r : Reading) (m m' : Meter) (a : Target)
        → Entered purpose r m m' a → read purpose r m ≡ (Ok (shape r.segments a), m') }
    ensures exactly { (purpose : Purpose) (r : Reading) (m : Meter)
        → CanBeRead purpose r m ↔ IsOk (read purpose r m).0 }
    ensures refused { (r : Reading) (m m' : Meter) (k : ErrorKind)
        → NotRead Value r m m' k ↔ (read Value r m ≡ (Err k, m')) }
    ensures measured { (r : Reading) (m m' : Meter) (k : ErrorKind)
        → NotMeasured r m m' k ↔ (read Size r m ≡ (Err k, m')) }
{}

/// Reading an object that a call expects to be of some kind is a function: `expect` returns the
/// object with the limiter afterwards (`object`), or the error of the refusal with the limiter
/// afterwards (`refused`). It returns an object exactly if the call has an answer (`exactly`).
pub fn expected_computed()
    ensures object { (e : Expected) (r : Reading) (m m' : Meter) (x : Object)
        → HasExpected (expectation e) r m → IsObject Value (record r { levels = 1 }) m m' x
        → expect (expectation e) r m ≡ (Ok (object_shape x), m') }
    ensures exactly { (e : Expected) (r : Reading) (m : Meter)
        → HasExpected (expectation e) r m ↔ IsOk (expect (expectation e) r m).0 }
    ensures refused { (e : Expected) (r : Reading) (m m' : Meter) (k : ErrorKind)
        → RefusesExpected (expectation e) r m m' k ↔ (expect (expectation e) r m ≡ (Err k, m')) }
{}

/// Reading the type of a pointer is a function: `pointer_type` returns the type with the limiter
/// afterwards (`of_type`), or the error of the refusal with the limiter afterwards (`refused`).
pub fn types_computed()
    ensures of_type { (r : Reading) (m m' : Meter) (t : PointerType)
        → IsOfType r m m' t ↔ (pointer_type r m ≡ (Ok t, m')) }
    ensures refused { (r : Reading) (m m' : Meter) (k : ErrorKind)
        → HasNoType r m m' k ↔ (pointer_type r m ≡ (Err k, m')) }
{}

/// If there is no traversal limit, or nothing is charged, each refusal names a demand, and the
/// reading reaches a place that breaks this demand.
pub fn refused_unlimited()
    ensures { (form : Form) (r : Reading) (m m' : Meter) (k : ErrorKind)
        → ((x : ℕ) → Affords r.charging m x) → Refused form r m m' k → HasFault form r k }
{}

/// For each place, one of these holds: the message has, within the nesting limit, a value at the
/// place, and `form` accepts the value; or a reading of the place reaches a place that breaks a
/// demand.
pub fn value_or_fault()
    ensures { (form : Form) (r : Reading)
        → ((t : Tree) × (c : ℕ) × MeansThere r t c × AllowsCapabilities form (capabilities t))
        ⊎ ((k : ErrorKind) × HasFault form r k) }
{}

/// With x words left in the limiter, a reading follows at most x + 1 pointers, whether it results
/// in a value, is refused, or stops before its end.
pub fn few_followed()
    ensures { (form : Form) (r : Reading) (m m' : Meter) (x : ℕ)
        → r.charging ≡ true → m.left ≡ Some x
        → ((t : Tree) × Reads form r m m' t) ⊎ ((k : ErrorKind) × Refused form r m m' k)
        ⊎ StopsWithin form (IsTried form) r m m'
        → m'.followed ≤ m.followed + (x + 1) }
{}

/// If following a pointer ends at a word that isn't a far pointer, then, by the encoding
/// specification, that word describes the object that the pointer leads to. This is so for every
/// pointer whose object is read.
pub fn followed_leads()
    ensures { (r : Reading) (a : Target) → FollowsTo r a → kind a.word ≢ 2 → LeadsTo r a }
{}
