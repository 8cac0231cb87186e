// What reading answers where a text does not fit.

// The first byte that does not fit, the text's end counted.
#[derive(Clone, Copy)]
pub struct Misfit(pub usize);
