// How far a text is a policy set's, and whether it is one.
ghost use Rattle.xml.specs.Grammar.{set};
ghost use Rattle.reader.specs.Read.{Reached};

use crate::misfit::Misfit;
use crate::reader::Reader;
use crate::run::run_end;
use crate::table::BEHIND;
use forms::kind::ByteKind;

// `Ok` where the text is a whole one, or the first byte that no policy set has there.
pub fn reach_of(text: &[u8]) -> Result<(), Misfit>
    ensures { Reached set text.now result }
{
    let mut reader = Reader::new(text, 0);
    let mut state = 0;
    while state != BEHIND {
        state = reader.next_tag(state)?.state;
    }
    let end = run_end(text, reader.at, ByteKind::Space);
    if end == text.len() {
        Ok(())
    } else {
        Err(Misfit(end))
    }
}
