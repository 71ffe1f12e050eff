// What was answered, as octets. What has no room is left out.
ghost use Rattle.std.specs.Prelude.{◌≤◌};

#[derive(Clone, Copy)]
pub(crate) struct Answers {
    octets: [u8; 64],
    length: usize,
    ghost within: { length ≤ 64 },
}

impl Answers {
    pub(crate) fn none() -> Answers {
        Answers {
            octets: [0; 64],
            length: 0,
        }
    }

    pub(crate) fn of(list: &[u8]) -> Answers {
        let mut answers = Answers::none();
        answers.push_all(list);
        answers
    }

    pub(crate) fn refused(n: u8) -> Answers {
        let mut answers = Answers::none();
        answers.push_refusal(n);
        answers
    }

    pub(crate) fn push(&mut self, octet: u8) {
        self.push_all(&[octet]);
    }

    // R and the number of a refusal.
    pub(crate) fn push_refusal(&mut self, n: u8) {
        self.push_all(&[b'R', n]);
    }

    pub(crate) fn push_all(&mut self, list: &[u8]) {
        if let Some(room) = self.octets[self.length..].get_mut(..list.len()) {
            room.copy_from_slice(list);
            self.length += list.len();
        }
    }

    pub(crate) fn as_slice(&self) -> &[u8] {
        &self.octets[..self.length]
    }
}
