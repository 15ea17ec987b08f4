//! The bytes that can be a device's serial.

ghost use Rattle.std.specs.Prelude.{◌≡◌};
ghost use Rattle.adb_outside.specs.Bytes.{is_graphic};
ghost use Rattle.adb_outside.specs.Serial.{is_serial};

/// The maximum length in bytes of a serial.
pub const MAX_SERIAL: usize = 64;

/// Returns whether a text can be a device's serial: 1 to 64 bytes of 0x21 to 0x7e.
pub fn is_serial(serial: &[u8]) -> bool
    ensures { result ≡ is_serial serial.now }
{
    !serial.is_empty() && serial.len() <= MAX_SERIAL && is_graphic(serial)
}

/// Returns whether each byte is a printable ASCII character other than a space: 0x21 to 0x7e.
pub fn is_graphic(text: &[u8]) -> bool
    ensures { result ≡ is_graphic text.now }
{
    text.iter().all(|byte| byte.is_ascii_graphic())
}
