//! The dependencies between the limits of packets, records and clients.

ghost use Rattle.std.specs.Prelude.{◌≡◌, ◌≤◌, ◌+◌, ◌*◌};
ghost use Rattle.adb_capture.specs.declared.limits.TheConstants.{MAX_DATA};
ghost use Rattle.adb_client.specs.declared.gathered.TheConstants.{MAX_HELD};
ghost use Rattle.adb_client.specs.declared.output.TheConstants.{MAX_SLICE};
ghost use Rattle.adb_history.specs.declared.hand_out.TheConstants.{MAX_HAND_OUT};
ghost use Rattle.adb_wire.specs.declared.headers.TheConstants.{HEADER_LEN, MAX_PAYLOAD};
ghost use Rattle.adb_wire.specs.declared.slicer.TheConstants.{MAX_PACKET};

/// States which limits follow from the longest payload: a payload is queued for a client as one
/// slice, a packet is a header and a payload, and a record of a capture has room for the bytes of a
/// packet and for all that a client sends or is handed at once.
pub fn limits_follow_the_payload()
    ensures slice { MAX_SLICE ≡ MAX_PAYLOAD }
    ensures packet { MAX_PACKET ≡ HEADER_LEN + MAX_PAYLOAD }
    ensures payloads { MAX_DATA ≡ 2 * MAX_PAYLOAD }
    ensures packet_data { MAX_PACKET ≤ MAX_DATA }
    ensures held_data { MAX_HELD ≤ MAX_DATA }
    ensures handed_data { MAX_HAND_OUT ≤ MAX_DATA }
{}
