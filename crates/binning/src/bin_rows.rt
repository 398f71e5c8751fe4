use crate::gathering::Bin;
use wah_logic::HasRows;
use wah_words::Wah;

impl HasRows for Bin {
    ghost row_bits = { λ b. b.rows };

    #[inline(always)]
    fn rows(&self) -> &Wah {
        &self.rows
    }
}
