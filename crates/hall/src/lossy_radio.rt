// A radio that loses frames by chance.

// The chances in 100 of a loss, and the state of a generator of 32 bits.
#[derive(Clone, Copy)]
pub(crate) struct LossyRadio {
    loss: u32,
    state: u32,
}

impl LossyRadio {
    // A generator that starts from a seed; one that starts from 0 would stay there.
    pub(crate) fn new(loss: u32, seed: u32) -> LossyRadio {
        LossyRadio {
            loss,
            state: seed.max(1),
        }
    }

    // Whether the next frame is lost.
    pub(crate) fn loses(&mut self) -> bool {
        let mut draw = self.state;
        draw ^= draw << 13;
        draw ^= draw >> 17;
        draw ^= draw << 5;
        self.state = draw;
        draw % 100 < self.loss
    }
}
