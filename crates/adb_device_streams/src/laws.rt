//! Laws of any CNXN of a host. The function does nothing: its contract is the law.

ghost use Rattle.std.specs.Prelude.{◌≡◌, ◌||◌, ℕ, Bool, min, nat_lt, is_none, IfSome};
ghost use Rattle.adb_banner.specs.Banner.{identity_of};
ghost use Rattle.adb_wire.specs.declared.headers.TheConstants.{MAX_PAYLOAD};
ghost use Rattle.adb_wire.specs.declared.limits.TheConstants.{MIN_VERSION, MIN_MAXDATA};
ghost use Rattle.adb_wire.specs.declared.packets.Packet.{Packet};
ghost use Rattle.adb_wire.specs.Format.{has_sums};
ghost use Rattle.adb_device_streams.specs.Link.{link_of};

/// States that the device refuses a CNXN exactly if a host refuses that of a device: its version is
/// too old, it accepts too few bytes, or it has no identity. Packets on its link carry sums if
/// those of the version do, and a write is no longer than each end accepts.
pub fn links_are_as_a_host_makes_them()
    ensures refused { (own_most : ℕ) (has_credit : Bool) (cnxn : Packet)
        → is_none (link_of own_most has_credit cnxn)
        ≡ (nat_lt cnxn.arg0 MIN_VERSION || nat_lt cnxn.arg1 MIN_MAXDATA
        || is_none (identity_of cnxn.payload)) }
    ensures linked { (own_most : ℕ) (has_credit : Bool) (cnxn : Packet)
        → IfSome (link_of own_most has_credit cnxn) (λ link. (link.sums ≡ has_sums cnxn.arg0)
        × (link.most ≡ min (min cnxn.arg1 MAX_PAYLOAD) own_most)) }
{}
