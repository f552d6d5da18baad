// libfossknut.a: the functions that foreign callers link, each the library fossknut's own, under the same clauses; what each does is said there. A
// crate is a library or a static library, and none may stand on a static one: so both stand here and there (docs/DECISIONS.md, 118).
#![tactic(auto)]

ghost use Rattle.std.specs.Prelude.{◌≡◌};
ghost use Rattle.rules.specs.Check.{check};
ghost use Rattle.rules.specs.Crc.{crc32};
ghost use Rattle.rules.specs.Send.{sent_of, default_piece};
ghost use Rattle.rules.specs.Step.{step_of, gap_of};
ghost use Rattle.caller_numbers.specs.Numbers.{address_of, settings_of, flag_of, state_of, state_bytes};
ghost use Rattle.fossknut.specs.Told.{ReceiveTold, SendTold, FindingTold, PacketTold};
ghost use Rattle.notification_rules.specs.Finding.{finding_of};
ghost use Rattle.pes_rules.specs.Packet.{read_of};

#[unsafe(no_mangle)]
pub extern "C" fn fossknut_crc_32(s: &[u8]) -> u32
    ensures { result ≡ crc32 s.now }
{
    fossknut::fossknut_crc_32(s)
}

#[unsafe(no_mangle)]
pub extern "C" fn fossknut_check(s: &[u8]) -> u8
    ensures { result ≡ check s.now }
{
    fossknut::fossknut_check(s)
}

#[unsafe(no_mangle)]
pub extern "C" fn fossknut_receive(
    mac1: u8,
    mac2: u8,
    mac3: u8,
    mac4: u8,
    mac5: u8,
    mac6: u8,
    range: usize,
    limit: usize,
    state: &mut [u8; 16],
    s: &[u8],
    buffer: &mut [u8],
    length: &mut usize,
) -> u8
    ensures { ReceiveTold
        (step_of
        (settings_of mac1 mac2 mac3 mac4 mac5 mac6 range limit)
        (state_of state.old)
        s.now
        buffer.old)
        result
        length.new
        state.new
        buffer.new }
{
    fossknut::fossknut_receive(
        mac1, mac2, mac3, mac4, mac5, mac6, range, limit, state, s, buffer, length,
    )
}

#[unsafe(no_mangle)]
pub extern "C" fn fossknut_gap(state: &mut [u8; 16])
    ensures { state.new ≡ state_bytes (gap_of (state_of state.old)) }
{
    fossknut::fossknut_gap(state);
}

#[unsafe(no_mangle)]
pub extern "C" fn fossknut_send(
    mac1: u8,
    mac2: u8,
    mac3: u8,
    mac4: u8,
    mac5: u8,
    mac6: u8,
    range: usize,
    limit: usize,
    llc_snap: u8,
    size: usize,
    unit: &[u8],
    out: &mut [u8],
    length: &mut usize,
) -> u8
    ensures { SendTold (sent_of (settings_of mac1 mac2 mac3 mac4 mac5 mac6 range limit) (flag_of llc_snap) size
        unit.now out.old) result length.new out.new }
{
    fossknut::fossknut_send(
        mac1, mac2, mac3, mac4, mac5, mac6, range, limit, llc_snap, size, unit, out, length,
    )
}

#[unsafe(no_mangle)]
pub extern "C" fn fossknut_send_by_default(
    mac1: u8,
    mac2: u8,
    mac3: u8,
    mac4: u8,
    mac5: u8,
    mac6: u8,
    range: usize,
    limit: usize,
    llc_snap: u8,
    unit: &[u8],
    out: &mut [u8],
    length: &mut usize,
) -> u8
    ensures { SendTold (sent_of (settings_of mac1 mac2 mac3 mac4 mac5 mac6 range limit) (flag_of llc_snap) default_piece
        unit.now out.old) result length.new out.new }
{
    fossknut::fossknut_send_by_default(
        mac1, mac2, mac3, mac4, mac5, mac6, range, limit, llc_snap, unit, out, length,
    )
}

#[unsafe(no_mangle)]
pub extern "C" fn fossknut_notification(
    mac1: u8,
    mac2: u8,
    mac3: u8,
    mac4: u8,
    mac5: u8,
    mac6: u8,
    s: &[u8],
    offset: &mut usize,
) -> u8
    ensures { FindingTold (finding_of (address_of mac1 mac2 mac3 mac4 mac5 mac6) s.now) result offset.new }
{
    fossknut::fossknut_notification(mac1, mac2, mac3, mac4, mac5, mac6, s, offset)
}

#[unsafe(no_mangle)]
pub extern "C" fn fossknut_pes(
    packet: &[u8],
    extended: &mut u8,
    rated: &mut u8,
    extension: &mut usize,
    rate: &mut usize,
    offset: &mut usize,
    length: &mut usize,
) -> u8
    ensures { PacketTold
        (read_of packet.now)
        result
        extended.new
        rated.new
        extension.new
        rate.new
        offset.new
        length.new }
{
    fossknut::fossknut_pes(packet, extended, rated, extension, rate, offset, length)
}
