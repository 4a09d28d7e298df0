ghost use Rattle.std.specs.Prelude.{◌≡◌, ◌≢◌, ℕ, ◌≤◌, ◌⊎◌, List, [], Option, Some, None, IfOk, vec_len};
ghost use Rattle.std.specs.Option.{option_copied};
ghost use Rattle.obj_edges.specs.Told.{Contents, HasBytes, IsLonger, Rises, Adds, AddsFront, Asks};

use std::alloc::Global;

/// The most bytes of one input file: 16 MiB.
pub const MAX_FILE_LEN: usize = 16_777_216;

/// How a put ended.
#[derive(Clone, Copy, Debug, PartialEq, Eq)]
pub enum Put {
    /// The whole piece was taken.
    Done,
    /// At most a front of the piece was taken, and the count of faults rose.
    Failed,
}

/// Why a file was not read.
#[derive(Clone, Copy, Debug, PartialEq, Eq)]
pub enum FileError {
    /// The file is not there or cannot be read; the count of faults rose.
    Failed,
    /// The file has more than [`MAX_FILE_LEN`] bytes.
    TooLong,
    NoMemory,
}

/// Files that are read whole, by name.
pub trait Files {
    // What is told of a name: nothing, that it has no contents, or its bytes.
    ghost contents: { Self → List ℕ → Contents };

    // The names asked so far, where they are told.
    ghost asked: { Self → Option (List (List ℕ)) };

    // How many reads failed.
    ghost faults: { Self → ℕ };

    /// The bytes of the file; the name is noted as asked unless memory is wanting. A name without
    /// contents is refused as failed.
    fn read(&mut self, alloc: Global, name: &str) -> Result<Vec<u8>, FileError>
        ensures found { IfOk result (λ bytes. HasBytes (contents self.old name.now) bytes.items) }
        ensures short { IfOk result (λ bytes. vec_len bytes ≤ MAX_FILE_LEN) }
        ensures too_long { result ≡ Err FileError.TooLong → IsLonger (contents self.old name.now) MAX_FILE_LEN }
        ensures absent { contents self.old name.now ≡ Some None → (result ≡ Err FileError.Failed) ⊎ (result ≡ Err FileError.NoMemory) }
        ensures failed { result ≡ Err FileError.Failed → Rises (faults self.old) (faults self.new) }

        ensures same { (other : List ℕ) → contents self.new other ≡ contents self.old other }
        ensures asks { result ≢ Err FileError.NoMemory → Asks (asked self.old) (asked self.new) name.now }
        ensures asks_none { result ≡ Err FileError.NoMemory → asked self.new ≡ asked self.old }
        ensures never_falls { faults self.old ≤ faults self.new };
}

/// The place of the report.
pub trait Sink {
    // All bytes put so far, where they are told.
    ghost told: { Self → Option (List ℕ) };

    // How many puts failed.
    ghost faults: { Self → ℕ };

    /// Puts a piece behind the others. It takes no memory that could be wanting.
    fn put(&mut self, piece: &[u8]) -> Put
        ensures done { result ≡ Put.Done → Adds (told self.old) (told self.new) piece.now }
        ensures failed { result ≡ Put.Failed → AddsFront (told self.old) (told self.new) piece.now }
        ensures rises { result ≡ Put.Failed → Rises (faults self.old) (faults self.new) }
        ensures nothing { piece.now ≡ [] → result ≡ Put.Done }
        ensures never_falls { faults self.old ≤ faults self.new };
}

/// What one process prints to.
pub trait Device: Drop {
    // All bytes put so far, where they are told.
    ghost bytes: { Self → Option (List ℕ) };

    // How many puts failed.
    ghost faults: { Self → ℕ };

    /// Puts a piece behind the others. It takes no memory that could be wanting.
    fn put(&mut self, piece: &[u8]) -> Put
        ensures done { result ≡ Put.Done → Adds (bytes self.old) (bytes self.new) piece.now }
        ensures failed { result ≡ Put.Failed → AddsFront (bytes self.old) (bytes self.new) piece.now }
        ensures rises { result ≡ Put.Failed → Rises (faults self.old) (faults self.new) }
        ensures nothing { piece.now ≡ [] → result ≡ Put.Done }
        ensures never_falls { faults self.old ≤ faults self.new };

    /// All bytes put so far, where the device tells them.
    fn told(&self) -> Option<&[u8]>
        ensures { option_copied result ≡ bytes self.now };
}
