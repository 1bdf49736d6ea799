//! What holds of all frames, of either version. The laws run nothing: a caller names them for their contract.
ghost use Rattle.std.specs.Prelude.{◌≡◌, ◌≤◌, ◌++◌, [], List, ℕ, length, Ok};
ghost use Rattle.geo_frame.specs.Payloads.{Payload, PayloadInRange};
ghost use Rattle.geo_frame.specs.Spelling.{IsFrameOf, longest_frame};
ghost use Rattle.geo_frame.specs.Reading.{frame_in, length_field};

/// To read a frame of a message gives the message.
pub fn frame_gives_its_message()
    ensures { (m : Payload) (frame : List ℕ) → PayloadInRange m → IsFrameOf frame m → length frame ≤ longest_frame → frame_in frame ≡ Ok m }
{}

/// Two messages have no frame in common.
pub fn frame_is_of_one_message()
    ensures { (m n : Payload) (frame : List ℕ) → PayloadInRange m → PayloadInRange n → length frame ≤ longest_frame → IsFrameOf frame m
        → IsFrameOf frame n → m ≡ n }
{}

/// No frame begins another.
pub fn no_frame_begins_another()
    ensures { (m n : Payload) (one other more : List ℕ) → IsFrameOf one m → IsFrameOf other n → length one ≤ longest_frame
        → length other ≤ longest_frame → one ++ more ≡ other → more ≡ [] }
{}

/// The length field in a frame's first nine bytes or more is the length of the frame, whatever follows it.
pub fn length_is_told_early()
    ensures { (m : Payload) (frame front back more : List ℕ) → IsFrameOf frame m → length frame ≤ longest_frame → 9 ≤ length front
        → front ++ back ≡ frame ++ more → length_field front ≡ length frame }
{}
