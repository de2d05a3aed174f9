// The fields of a request; where each stands is in specs/Shape.antt.

// What a request of the right form says. What is not there is 0, and no Option: the rows compare the counts (`fits_of`), and `request_fields` says 0.
#[derive(Clone, Copy)]
pub struct Fields {
    pub function: u8,
    // Registers read and written.
    pub reads: u16,
    pub writes: u16,
    // Where the read is from and the write to; one that is not there is 0.
    pub from: u16,
    pub to: u16,
    pub value: u16,
    pub message: u16,
}
