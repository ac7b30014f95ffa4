//! Laws of frames that aren't about one call (encoding specification, "Serialization Over a
//! Stream"). Each function does nothing: its contract is the law, proved for all messages.

ghost use Rattle.std.specs.Prelude.{◌≡◌, ℕ, ◌≤◌, List, [], ◌∷◌, ◌++◌, length};
ghost use Rattle.capnp_format.specs.Bytes.{message};
ghost use Rattle.capnp_format.specs.Segments.{Segments};
ghost use Rattle.capnp_framing.specs.Bare.{AreBareWords, NoBareWords, most_bare};
ghost use Rattle.capnp_framing.specs.Frames.{AreSegmentWords, CanBeFramed, IsFrameOf, bytes_of_words, frame};
ghost use Rattle.capnp_framing.specs.Prefix.{TellsSize};
ghost use Rattle.capnp_framing.specs.Reading.{NoFrame, total};
ghost use Rattle.capnp_framing.specs.declared.framing.frame_error.FrameError.{FrameError};

/// If the same bytes begin with two frames, the frames are equal, and are frames of the same
/// message. So bytes are a frame of at most one message, and no frame is the beginning of a
/// different frame.
pub fn one_frame()
    ensures begins { (S R : Segments) (a b rest more : List ℕ) → IsFrameOf S a → IsFrameOf R b
        → a ++ rest ≡ b ++ more → (S ≡ R) × (a ≡ b) × (rest ≡ more) }
    ensures message { (S R : Segments) (bytes : List ℕ) → IsFrameOf S bytes → IsFrameOf R bytes
        → S ≡ R }
{}

/// What `write` writes for a message is a frame of that message, and of no other. Any other frame
/// of the message has the same length; only its padding may differ.
pub fn written_frames()
    ensures framed { (S : Segments) → CanBeFramed S → IsFrameOf S (frame S) }
    ensures long { (S : Segments) (bytes : List ℕ) → IsFrameOf S bytes
        → length bytes ≡ length (frame S) }
    ensures same { (S R : Segments) → CanBeFramed S → CanBeFramed R → frame S ≡ frame R → S ≡ R }
{}

/// A frame of at most `most` words is never refused for its contents, whatever bytes follow it.
pub fn frame_is_read()
    ensures { (S : Segments) (bytes rest : List ℕ) (most : ℕ) (e : FrameError) → IsFrameOf S bytes
        → total S ≤ most → NoFrame (bytes ++ rest) most e → ⊥ }
{}

/// If a segment has at most `most` words, the bytes of these words, without a frame, are read as a
/// message with this one segment. Whole words are never refused for their contents, if there are at
/// most `most`, and no more than a segment can have.
pub fn raw_words_are_read()
    ensures same { (ws : List ℕ) (most : ℕ) → AreSegmentWords ws → length ws ≤ most_bare most
        → AreBareWords (bytes_of_words ws) most × (message (bytes_of_words ws ∷ []) ≡ ws ∷ []) }
    ensures read { (bytes : List ℕ) (most : ℕ) (e : FrameError) → AreBareWords bytes most
        → NoBareWords bytes most e → ⊥ }
{}

/// If a stream begins with a frame, `size_from_prefix` doesn't refuse the first bytes of the stream,
/// however many there are, and returns at most the size of the frame. If it returns no more than the
/// number of these bytes, it returns exactly the size of the frame.
pub fn sizes_from_prefixes()
    ensures { (S : Segments) (bytes later prefix rest : List ℕ) (most : ℕ) → IsFrameOf S bytes
        → total S ≤ most → bytes ++ later ≡ prefix ++ rest → TellsSize prefix most (length bytes) }
{}
