//! Parsing an identity.

ghost use Rattle.adb_banner.specs.Banner.{without_nuls, is_colon, is_semicolon, is_identity, part_value, last_value, identity_of, is_feature};
ghost use Rattle.adb_banner.specs.declared.identity.IdentityError.TheVariants.{OutOfMemory};
ghost use Rattle.std.specs.List.{before_first, after_first, slice_split};
ghost use Rattle.std.specs.Option.{option_copied};
ghost use Rattle.std.specs.Prelude.{◌≡◌, ◌≤◌, ◌↔◌, true, false, length, MatchOption, IfOk};

use adb_outside::{Identity, Text};
use bstr::ByteSlice;
use std::alloc::{AllocError, Global};

/// The maximum number of bytes of an identity, without the NULs at its end.
pub const MAX_IDENTITY: usize = 32_768;

/// States the numbers that definitions take from the code.
pub fn limits_are()
    ensures identity { MAX_IDENTITY ≡ 32768 }
{}

/// The reason why no identity was parsed.
#[derive(Clone, Copy, Debug, PartialEq, Eq, Drop)]
pub enum IdentityError {
    /// Without the NULs at their end, the bytes have fewer than two colons, or there are too many
    /// of them.
    NotIdentity,
    OutOfMemory,
}

impl From<AllocError> for IdentityError {
    ghost from_gives = { λ _ error. error ≡ OutOfMemory };

    fn from(_error: AllocError) -> IdentityError {
        IdentityError::OutOfMemory
    }
}

/// Parses the payload of a CNXN, `<system>:<serial>:<banner>`, which NULs may follow. It is cut at
/// its first two colons, so a banner may contain more. The banner consists of parts `<key>=<value>`
/// separated by `;`, each cut at its first `=`. The keys `ro.product.name`, `ro.product.model`,
/// `ro.product.device` and `features` are known, and the last part with a key counts. Other keys,
/// and parts without `=`, are ignored.
///
/// `NotIdentity`: returned exactly if the bytes without the NULs have fewer than two colons, or are
/// more than `MAX_IDENTITY`.
#[tactic(auto, unfolding(crate::specs::Banner::identity_of))]
pub fn read(alloc: Global, bytes: &[u8]) -> Result<Identity, IdentityError>
    ensures identity { IfOk result (λ identity. identity_of bytes.now ≡ Some identity) }
    ensures not_identity { (result ≡ Err IdentityError.NotIdentity)
        ↔ (identity_of bytes.now ≡ None) }
    ensures features_short { IfOk result (λ identity. length identity.features ≤ MAX_IDENTITY) }
{
    let sections = cut(bytes).ok_or(IdentityError::NotIdentity)?;
    Ok(Identity {
        system: Text::from_slice(alloc, sections.system)?,
        serial: Text::from_slice(alloc, sections.serial)?,
        product: Text::from_slice(alloc, find_last(sections.banner, b"ro.product.name"))?,
        model: Text::from_slice(alloc, find_last(sections.banner, b"ro.product.model"))?,
        device: Text::from_slice(alloc, find_last(sections.banner, b"ro.product.device"))?,
        features: Text::from_slice(alloc, find_last(sections.banner, b"features"))?,
    })
}

/// Returns whether the name is one of the comma-separated parts of the features. Empty features
/// have one part, which is empty.
pub fn has_feature(identity: &Identity, name: &[u8]) -> bool
    ensures { result ≡ is_feature identity.now.features name.now }
{
    identity
        .features
        .as_slice()
        .split(|byte| *byte == b',')
        .any(|part| part == name)
}

/// The parts of an identity, which is cut at its first two colons.
#[derive(Clone, Copy)]
struct Sections<'a> {
    system: &'a [u8],
    serial: &'a [u8],
    banner: &'a [u8],
}

/// Cuts the bytes without the NULs at their end. Returns `None` if they are no identity.
fn cut(bytes: &[u8]) -> Option<Sections<'_>>
    ensures { let text = without_nuls bytes.now in let rest = after_first is_colon text in
        MatchOption result (is_identity text ≡ false) (λ cut. (is_identity text ≡ true)
        × (cut.system.now ≡ before_first is_colon text)
        × (cut.serial.now ≡ before_first is_colon rest)
        × (cut.banner.now ≡ after_first is_colon rest)) }
{
    let text = strip_nuls(bytes);
    if text.len() > MAX_IDENTITY {
        return None;
    }
    let (system, rest) = text.split_once_str(b":")?;
    let (serial, banner) = rest.split_once_str(b":")?;
    Some(Sections {
        system,
        serial,
        banner,
    })
}

/// Returns the bytes without the NULs at their end.
fn strip_nuls(bytes: &[u8]) -> &[u8]
    ensures { result.now ≡ without_nuls bytes.now }
{
    match bytes.rfind_not_byteset(b"\0") {
        Some(last) => &bytes[..=last],
        None => b"",
    }
}

/// Returns the value of the last part of a banner that has the key, or no bytes if no part has it.
fn find_last<'a>(banner: &'a [u8], key: &[u8]) -> &'a [u8]
    ensures last { result.now ≡ last_value key.now (slice_split is_semicolon banner.now) }
    ensures short { length result.now ≤ length banner.now }
{
    let mut found: &[u8] = b"";
    for part in banner.split(|byte| *byte == b';') {
        if let Some(value) = value_of(part, key) {
            found = value;
        }
    }
    found
}

/// Returns the value of a part, if the part has the key.
fn value_of<'a>(part: &'a [u8], key: &[u8]) -> Option<&'a [u8]>
    ensures { option_copied result ≡ part_value key.now part.now }
{
    let (name, value) = part.split_once_str(b"=")?;
    (name == key).then_some(value)
}
