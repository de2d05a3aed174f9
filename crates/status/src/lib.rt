// The master's own status (02, Ask 2): what a line remembers of it, whether a query has one to send, and the word of a query with it.
#![tactic(auto)]

ghost use Rattle.std.specs.Prelude.{◌≡◌};
ghost use Rattle.turns.specs.Status.{exchanges_of, keeps_of, shows_of, flags_for, lacks_of, status_word, word_by};

use turns::{Query, Status};
use word::{Frame, build, id_of, type_of, value_of};

// Whether the query is a status question: a read alone with id 0 or 70.
#[tactic(auto, unfolding(turns::specs::Status::exchanges_of))]
fn exchanges(query: Query) -> bool
    ensures { result ≡ exchanges_of query }
{
    query.alone && matches!(id_of(query.word), 0 | 70)
}

// What is remembered of an id where the frame goes out: its high byte, if it is a READ-DATA with this id.
#[tactic(auto, unfolding(turns::specs::Status::keeps_of))]
fn keeps(id: u8, flags: Option<u8>, frame: Frame) -> Option<u8>
    ensures { result ≡ keeps_of id flags frame }
{
    if type_of(frame.word) == 0 && id_of(frame.word) == id {
        Some((value_of(frame.word) / 256) as u8)
    } else {
        flags
    }
}

// What goes out for the thermostat is its status from then on, if it is one.
#[tactic(auto, unfolding(turns::specs::Status::shows_of))]
pub fn shows(status: Status, frame: Frame) -> Status
    ensures { result ≡ shows_of status frame }
{
    Status {
        heating: keeps(0, status.heating, frame),
        ventilation: keeps(70, status.ventilation, frame),
    }
}

#[tactic(auto, unfolding(turns::specs::Status::flags_for))]
fn flags_for(status: Status, id: u8) -> Option<u8>
    ensures { result ≡ flags_for status id }
{
    if id == 0 {
        status.heating
    } else {
        status.ventilation
    }
}

// Whether the query is a status question, and there is no status to send.
#[tactic(auto, unfolding(turns::specs::Status::lacks_of))]
pub fn lacks(status: Status, query: Query) -> bool
    ensures { result ≡ lacks_of status query }
{
    exchanges(query) && flags_for(status, id_of(query.word)).is_none()
}

// READ-DATA with the id and the high byte, low byte 0.
#[tactic(auto, unfolding(turns::specs::Status::status_word, word::specs::Frame::built_of))]
fn status_word(id: u8, high: u8) -> u32
    ensures { result ≡ status_word id high }
{
    let Ok(word) = build(0, id, u16::from(high) * 256) else {
        unreachable!();
    };
    word
}

// The word of a query, when it goes out.
#[tactic(auto, unfolding(turns::specs::Status::word_by))]
pub fn word_by(status: Status, query: Query) -> u32
    ensures { result ≡ word_by status query }
{
    if !exchanges(query) {
        return query.word;
    }
    let id = id_of(query.word);
    status_word(id, flags_for(status, id).unwrap_or(0))
}
