//! Laws of the records of captures, as functions that do nothing.

ghost use Rattle.std.specs.Prelude.{◌≡◌, ◌<◌, ◌≤◌, ◌+◌, ◌++◌, ℕ, List, length, take, All};
ghost use Rattle.adb_outside.specs.Framing.{IsFraming};
ghost use Rattle.adb_outside.specs.declared.framer.Front.TheVariants.{More, Whole};
ghost use Rattle.adb_capture.specs.declared.limits.TheConstants.{RECORD_HEADER_LEN, MAX_DATA, MAX_CAPTURE, MAX_READ};
ghost use Rattle.adb_capture.specs.declared.entry.Entry.{Entry};
ghost use Rattle.adb_capture.specs.Records.{record_at, record_of, entry_in, offset_after, HasRecord};

/// States the values of the limits, for the definitions that name them.
pub fn limits_are()
    ensures header { RECORD_HEADER_LEN ≡ 9 }
    ensures data { MAX_DATA ≡ 2097152 }
    ensures capture { MAX_CAPTURE ≡ 1073741824 }
    ensures read { MAX_READ ≡ 65536 }
{}

/// States that records are a format: bytes that begin with a record or a fault still do so,
/// whatever follows. Bytes that begin with neither are shorter than the longest record.
pub fn records_are_framed()
    ensures framing { IsFraming record_at entry_in offset_after }
    ensures short { (offset : ℕ) (bytes : List ℕ)
        → record_at offset bytes ≡ More → length bytes < RECORD_HEADER_LEN + MAX_DATA }
{}

/// States that an encoded entry is decoded again, whatever follows it.
pub fn spelled_is_read()
    ensures whole { (offset : ℕ) (e : Entry) (rest : List ℕ)
        → HasRecord e → offset + length (record_of e) ≤ MAX_CAPTURE
        → record_at offset (record_of e ++ rest) ≡ Whole (length (record_of e)) }
    ensures entry { (offset : ℕ) (e : Entry)
        → HasRecord e → entry_in offset (record_of e) ≡ (offset, e) }
{}

/// States that a decoded entry is encoded to the same bytes: an entry has one encoding.
pub fn read_is_spelled()
    ensures spelled { (offset n : ℕ) (bytes : List ℕ)
        → All (λ b. b < 256) bytes → record_at offset bytes ≡ Whole n
        → take n bytes ≡ record_of (entry_in offset (take n bytes)).1 }
    ensures form { (offset n : ℕ) (bytes : List ℕ)
        → All (λ b. b < 256) bytes → record_at offset bytes ≡ Whole n
        → HasRecord (entry_in offset (take n bytes)).1 }
{}
