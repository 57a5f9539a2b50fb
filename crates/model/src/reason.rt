// Why there is no answer: the table of refusals, by its numbers.
#[derive(Clone, Copy, PartialEq, Eq, Debug)]
pub enum Reason {
    // A show file of over 65,536 bytes.
    FileTooLong = 1,
    // The line of names is not as it must be.
    BadNames = 2,
    // A line is not eleven values.
    BadLine = 3,
    // No whole number of rows, no row, or too many.
    BadRowCount = 4,
    // Block number or kind out of order.
    CannotFollow = 5,
    // A value out of its range, or an idle column that is not 0.
    OutOfRange = 6,
    // A cue named twice.
    NamedTwice = 7,
    // Links that do not rise, uses that fall.
    OutOfOrder = 8,
    // The last block has joins or no own cue, or another block has no joins.
    BadBlock = 9,
    // A block that stands for too many cues.
    TooManyCues = 10,
    // A lent output, path list or work area is too short.
    TooShort = 11,
    // A cue number of 0 or above the count.
    NoSuchCue = 12,
    // A path that leads nowhere, or not an own cue.
    NoSuchPath = 13,
    // No link leads from the one cue to the other.
    NoSuchLink = 14,
    // A line of the wait file is not two values, or its first not the names.
    BadWaitLine = 15,
    // A label in it that is not 1 to 254, or a wait over 6,000.
    WaitOutOfRange = 16,
    // A label in it that is not above the one before.
    WaitsOutOfOrder = 17,
}
