//! Writing to a client.
ghost use Rattle.std.specs.Prelude.{◌≡◌, [], false, OnOk, OnErr, IfErr, IsTrue};
ghost use Rattle.geo_dialogue.specs.Sessions.{Sends};

use crate::fault::SessionFault;
use crate::session::Session;
use geo_grammar::Device;
use std::io::Write;

/// Writes all that a session owes, or a beginning of it where a write fails.
pub fn send_owed<W: Write>(
    writer: &mut Device<W>,
    session: &mut Session,
) -> Result<(), SessionFault>
    ensures sends { Sends session.old session.new (W.contents writer.old.inner) (W.contents writer.new.inner) }
    ensures ok { OnOk result (session.new.owed ≡ []) }
    ensures err { IfErr result (λ fault. fault ≡ SessionFault.Write) }
    ensures failed { OnErr result (IsTrue writer.new.failed) }
    ensures works { OnOk result (writer.old.failed ≡ false → writer.new.failed ≡ false) }
{
    while !session.owed().is_empty() {
        match writer.write(session.owed()) {
            Ok(count) => session.sent(count),
            Err(_) => return Err(SessionFault::Write),
        }
    }
    Ok(())
}
