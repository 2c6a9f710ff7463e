ghost use Rattle.std.specs.Prelude.{◌≡◌, ◌≤◌, IsTrue, false};
ghost use Rattle.crell_program.specs.Delivery.{sink_seen, GotAll, GotPart, IsDelivered};

use crell_io::Sink;

/// The status where a sink failed.
const WRITE_FAILED: u8 = 7;

/// Writes an answer's texts to out, then to err, and gives its status.
pub fn deliver<O: Sink, E: Sink>(
    status: u8,
    out_text: &[u8],
    err_text: &[u8],
    out: &mut O,
    err: &mut E,
) -> u8
    ensures delivered { IsDelivered (record { status = status; out = out_text.now; err = err_text.now })
        (sink_seen O.written O.room_left O.faults out.old out.new)
        (sink_seen E.written E.room_left E.faults err.old err.new) result }
    ensures out_faults { O.faults out.old ≤ O.faults out.new }
    ensures err_faults { E.faults err.old ≤ E.faults err.new }
{
    if !write_whole(out, out_text) {
        return WRITE_FAILED;
    }
    if !write_whole(err, err_text) {
        return WRITE_FAILED;
    }
    status
}

/// Writes the text piece by piece. It answers false where the sink failed, after some first part of the text.
fn write_whole<K: Sink>(sink: &mut K, text: &[u8]) -> bool
    ensures whole { IsTrue result → GotAll (sink_seen K.written K.room_left K.faults sink.old sink.new) text.now }
    ensures part { result ≡ false → GotPart (sink_seen K.written K.room_left K.faults sink.old sink.new) text.now }
    ensures faults { K.faults sink.old ≤ K.faults sink.new }
{
    let mut done = 0;
    while done < text.len() {
        match sink.put(&text[done..]) {
            Ok(count) => {
                if count == 0 {
                    return false;
                }
                done += count;
            }
            Err(_) => return false,
        }
    }
    true
}
