// The sender (document 01, "Sender").
ghost use Rattle.std.specs.Prelude.{◌≡◌, true, ℕ, ◌+◌, ◌<◌, ◌≤◌, length, drop, get_or};
ghost use Rattle.cobs.specs.CodeBlocks.{choice};
ghost use Rattle.link.specs.Agreed.{agreed, valid, largest_frame};
ghost use Rattle.link.specs.Answers.{done, load_refusal, load_answer, next_refusal, next_answer};
ghost use Rattle.link.specs.Sender.{opened_sender, open_sender, lane_state, lane_d, with_lane, position_up, with_block, lane_ok, lane_on_line_ok, line_ok, in_bounds, put_frame, load, step1_cut_due, step3_covered, step4_break_off, step5_data, step6_code, steps_3_to_6, step2_no_lane, steps_1_to_6, next, seen};
ghost use Rattle.link.specs.SenderParts.{LaneReady, DataDue, SendsOn};

use crate::{OpenError, Settings};

// A lane is document 01's word for one of the sender's two places for a packet.
#[derive(Clone, Copy, Debug, PartialEq, Eq)]
pub enum Lane {
    Low,
    High,
}

// What the state has of a lane.
#[derive(Clone, Copy, Debug, PartialEq, Eq)]
pub struct LaneState {
    // the length of its frame; 0: the lane is empty, as document 01 has it
    pub length: u16,
    // the position in D
    pub position: u16,
}

// The state. Its items are listed in specs/Sender.antt as document 01 has them; here they stand in an order that took few machine
// instructions among those tried (docs/LANDINGS.md).
#[derive(Clone, Copy, Debug, PartialEq, Eq)]
pub struct Sender {
    // the settings octet, the width of the check, and the limit
    pub settings: Settings,
    pub low: LaneState,
    pub high: LaneState,
    // data octets left in the block that is being sent
    pub left: u8,
    // zeros due behind them
    pub zeros: u8,
    // the lane on the line
    pub on: Option<Lane>,
    // mark: the low lane's packet was broken off
    pub suspended: bool,
    // mark *cut due*: the flag that breaks it off comes next
    pub cut: bool,
}

// Why a load is refused.
#[derive(Clone, Copy, Debug, PartialEq, Eq)]
pub enum LoadError {
    PacketLength,
    AreaTooShort,
    OutOfBounds,
    LaneNotEmpty,
}

// The number of the refusal, 1 to 4.
impl From<LoadError> for u8 {
    ghost from_gives = { λ e n. n ≡ load_refusal e };

    fn from(e: LoadError) -> u8 {
        match e {
            LoadError::PacketLength => 1,
            LoadError::AreaTooShort => 2,
            LoadError::OutOfBounds => 3,
            LoadError::LaneNotEmpty => 4,
        }
    }
}

// Why a call of next octet is refused.
#[derive(Clone, Copy, Debug, PartialEq, Eq)]
pub enum NextError {
    AreaTooShort,
    OutOfBounds,
}

// The number of the refusal, 2 or 3.
impl From<NextError> for u8 {
    ghost from_gives = { λ e n. n ≡ next_refusal e };

    fn from(e: NextError) -> u8 {
        match e {
            NextError::AreaTooShort => 2,
            NextError::OutOfBounds => 3,
        }
    }
}

// What a step answers, and the state behind it. Steps take the state by value: a lent one goes through memory where a step is not inlined.
#[derive(Clone, Copy)]
struct Sent {
    state: Sender,
    // the octet to send; none: Idle
    answer: Result<Option<u8>, NextError>,
}

// A sender is opened empty. Refusals 23, of a limit out of range, and 3, of any width but 16 or 32, in this order.
pub fn open(settings: Settings) -> Result<Sender, OpenError>
    ensures { result ≡ open_sender settings }
{
    settings.validate()?;
    Ok(opened(settings))
}

fn opened(settings: Settings) -> Sender
    ensures { result ≡ opened_sender settings }
{
    Sender {
        settings,
        low: LaneState::EMPTY,
        high: LaneState::EMPTY,
        left: 0,
        zeros: 0,
        on: None,
        suspended: false,
        cut: false,
    }
}

impl LaneState {
    const EMPTY: LaneState = LaneState {
        length: 0,
        position: 0,
    };

    // An empty lane or a frame of an allowed length, and a position no further than behind D.
    fn in_bounds(self, settings: Settings) -> bool
        ensures { result ≡ lane_ok (agreed settings) self }
    {
        let length = self.length as usize;
        ((length == 0) | (settings.least_frame() <= length) & (length <= settings.largest_frame()))
            & (self.position as usize <= length + 1)
    }

    // The octet of D at the position; behind the frame stands the phantom.
    fn octet(self, area: &[u8]) -> u8
        requires { self.length ≤ length area.now }
        ensures { result ≡ get_or (lane_d self area.now) self.position 0 }
    {
        if self.position < self.length {
            area[self.position as usize]
        } else {
            0
        }
    }

    // The code of the next block, and what it covers.
    fn choose(self, area: &[u8], zxe: bool) -> cobs::Choice
        requires { (self.position ≤ self.length) × (self.length ≤ length area.now) }
        ensures { result ≡ choice zxe (drop self.position (lane_d self area.now)) }
    {
        cobs::choose(&area[self.position as usize..self.length as usize], zxe)
    }
}

impl Sender {
    fn lane_state(self, lane: Lane) -> LaneState
        ensures { result ≡ lane_state lane self }
    {
        match lane {
            Lane::Low => self.low,
            Lane::High => self.high,
        }
    }

    fn with_lane(self, lane: Lane, q: LaneState) -> Sender
        ensures { result ≡ with_lane lane q self }
    {
        match lane {
            Lane::Low => Sender { low: q, ..self },
            Lane::High => Sender { high: q, ..self },
        }
    }

    // A lane's position up by n, and so much of the block still to come. (Assignments, and no `..self`: it takes more instructions here.)
    fn cover(mut self, n: u8, lane: Lane, left: u8, zeros: u8) -> Sender
        requires { (lane_state lane self).position + n < 65536 }
        ensures { result ≡ with_block left zeros (position_up n lane self) }
    {
        self.left = left;
        self.zeros = zeros;
        match lane {
            Lane::Low => self.low.position += n as u16,
            Lane::High => self.high.position += n as u16,
        }
        self
    }

    // The lane on the line is not empty, and its block is inside D.
    fn lane_on_line_in_bounds(self, q: LaneState) -> bool
        ensures { result ≡ lane_on_line_ok q self }
    {
        (0 < q.length)
            & (q.position as usize + self.left as usize + self.zeros as usize
                <= q.length as usize + 1)
    }

    // With no lane on the line nothing is left or due. Low is not suspended while it is on the line. Only low can have a cut due, and then its
    // block has no data left.
    fn line_in_bounds(self) -> bool
        ensures { result ≡ line_ok self.on self }
    {
        match self.on {
            None => (self.left == 0) & (self.zeros == 0) & !self.cut,
            Some(Lane::Low) => {
                self.lane_on_line_in_bounds(self.low)
                    & !self.suspended
                    & (!self.cut | (self.left == 0))
            }
            Some(Lane::High) => self.lane_on_line_in_bounds(self.high) & !self.cut,
        }
    }

    // The refusal table's last paragraph.
    #[tactic(auto, unfolding(crate::specs::Sender::in_bounds))]
    fn in_bounds(self) -> bool
        ensures { result ≡ in_bounds (agreed self.settings) self }
    {
        self.low.in_bounds(self.settings)
            & self.high.in_bounds(self.settings)
            & (self.left <= 207)
            & (self.zeros <= 2)
            & ((0 < self.left) | (self.zeros == 0))
            & self.line_in_bounds()
            & (!self.suspended | (0 < self.low.length))
    }

    // The frame over the area's first octets, what lies behind it untouched; the lane stands at its beginning.
    fn put_frame(&mut self, lane: Lane, packet: &[u8], area: &mut [u8])
        requires { (valid (agreed self.old.settings) ≡ true)
            × (length packet.now ≤ (agreed self.old.settings).limit)
            × (largest_frame (agreed self.old.settings) ≤ length area.old) }
        ensures { record { answer = done; state = self.new; area = area.new }
            ≡ put_frame (agreed self.old.settings) lane packet.now self.old area.old }
    {
        crate::copy(packet, area, 0);
        self.settings.put_fcs(packet, area);
        let frame = LaneState {
            length: (packet.len() + self.settings.fcs_length()) as u16,
            position: 0,
        };
        *self = self.with_lane(lane, frame);
    }

    // Load: refusals 3 (of the width or the limit), 2, 3, 4 and 1, in this order, change nothing.
    #[tactic(auto, unfolding(crate::specs::Sender::load, crate::specs::Agreed::agreed))]
    pub fn load(&mut self, lane: Lane, packet: &[u8], area: &mut [u8]) -> Result<(), LoadError>
        ensures { record { answer = load_answer result; state = self.new; area = area.new }
            ≡ load lane packet.now self.old area.old }
    {
        if !self.settings.valid() {
            return Err(LoadError::OutOfBounds);
        }
        if area.len() < self.settings.largest_frame() {
            return Err(LoadError::AreaTooShort);
        }
        if !self.in_bounds() {
            return Err(LoadError::OutOfBounds);
        }
        if 0 < self.lane_state(lane).length {
            return Err(LoadError::LaneNotEmpty);
        }
        let limit = self.settings.limit as usize;
        if (packet.len() < crate::LEAST_PACKET) | (limit < packet.len()) {
            return Err(LoadError::PacketLength);
        }
        self.put_frame(lane, packet, area);
        Ok(())
    }

    fn next_refused(self, why: NextError) -> Sent
        ensures { result ≡ record { state = self; answer = Err why } }
    {
        Sent {
            state: self,
            answer: Err(why),
        }
    }

    fn sent(self, octet: u8) -> Sent
        ensures { result ≡ record { state = self; answer = Ok (Some octet) } }
    {
        Sent {
            state: self,
            answer: Ok(Some(octet)),
        }
    }

    // Step 1, a cut is due: the flag.
    fn step1_cut_due(self) -> Sent
        ensures { record { answer = next_answer result.answer; state = result.state } ≡ seen (step1_cut_due self) }
    {
        let off = Sender {
            on: None,
            suspended: true,
            cut: false,
            ..self
        };
        off.sent(cobs::FLAG)
    }

    // Step 3, all of D is covered: the flag. The lane is empty.
    fn step3_covered(self, lane: Lane) -> Sent
        ensures { record { answer = next_answer result.answer; state = result.state } ≡ seen (step3_covered lane self) }
    {
        let off = Sender {
            on: None,
            ..self.with_lane(lane, LaneState::EMPTY)
        };
        off.sent(cobs::FLAG)
    }

    // Step 4, low gives way to high: with data left by the flag, and what is left of the block is dropped; else by 02, and a cut is due.
    #[tactic(auto, unfolding(crate::specs::Sender::step4_break_off))]
    fn step4_break_off(self) -> Sent
        ensures { record { answer = next_answer result.answer; state = result.state } ≡ seen (step4_break_off self) }
    {
        if 0 < self.left {
            let off = Sender {
                left: 0,
                zeros: 0,
                on: None,
                suspended: true,
                ..self
            };
            return off.sent(cobs::FLAG);
        }
        Sender { cut: true, ..self }.sent(0x02)
    }

    // Step 5, data is left: the next data octet. The last one covers its block's zeros too.
    #[tactic(auto, unfolding(crate::specs::Sender::step5_data))]
    fn step5_data(self, lane: Lane, area: &[u8]) -> Sent
        requires { (0 < self.left) × LaneReady (agreed self.settings) (lane_state lane self) self.left self.zeros area.now }
        ensures { record { answer = next_answer result.answer; state = result.state }
            ≡ seen (step5_data lane self (lane_d (lane_state lane self) area.now)) }
    {
        let octet = cobs::to_line(self.lane_state(lane).octet(area));
        if self.left == 1 {
            return self.cover(1 + self.zeros, lane, 0, 0).sent(octet);
        }
        self.cover(1, lane, self.left - 1, self.zeros).sent(octet)
    }

    // Step 6, a block is chosen: its code. If the block has no data, its zeros are covered with it.
    #[tactic(auto, unfolding(crate::specs::Sender::step6_code))]
    fn step6_code(self, lane: Lane, c: cobs::Choice) -> Sent
        requires { (valid (agreed self.settings) ≡ true) × ((lane_state lane self).position ≤ largest_frame (agreed self.settings)) }
        ensures { record { answer = next_answer result.answer; state = result.state } ≡ seen (step6_code lane self c) }
    {
        let code = cobs::to_line(c.code);
        if c.nonzeros == 0 {
            return self.cover(c.zeros, lane, self.left, self.zeros).sent(code);
        }
        let begun = Sender {
            left: c.nonzeros,
            zeros: c.zeros,
            ..self
        };
        begun.sent(code)
    }

    // Steps 3 to 6, with the lane on the line.
    #[tactic(auto, unfolding(crate::specs::Sender::steps_3_to_6))]
    fn steps_3_to_6(self, lane: Lane, area: &[u8]) -> Sent
        requires { LaneReady (agreed self.settings) (lane_state lane self) self.left self.zeros area.now }
        ensures { record { answer = next_answer result.answer; state = result.state }
            ≡ seen (steps_3_to_6 (agreed self.settings) lane self (lane_d (lane_state lane self) area.now)) }
    {
        let q = self.lane_state(lane);
        if q.length < q.position {
            return self.step3_covered(lane);
        }
        if (lane == Lane::Low) & self.settings.pre() & (0 < self.high.length) {
            return self.step4_break_off();
        }
        if 0 < self.left {
            return self.step5_data(lane, area);
        }
        self.step6_code(lane, q.choose(area, self.settings.zxe()))
    }

    // Step 2, no lane on the line: high goes before low. Low, where it was suspended, sends D1 alone and is so no longer.
    #[tactic(auto, unfolding(crate::specs::Sender::step2_no_lane))]
    fn step2_no_lane(self, low: &[u8], high: &[u8]) -> Sent
        requires { LaneReady (agreed self.settings) self.low self.left self.zeros low.now
            × LaneReady (agreed self.settings) self.high self.left self.zeros high.now }
        ensures { record { answer = next_answer result.answer; state = result.state }
            ≡ seen (step2_no_lane (agreed self.settings) (record { state = self; low = low.now; high = high.now })) }
    {
        if 0 < self.high.length {
            let on = Sender {
                on: Some(Lane::High),
                ..self
            };
            return on.steps_3_to_6(Lane::High, high);
        }
        if self.low.length == 0 {
            return Sent {
                state: self,
                answer: Ok(None),
            };
        }
        let on = Sender {
            on: Some(Lane::Low),
            suspended: false,
            ..self
        };
        if self.suspended {
            return on.sent(0xd1);
        }
        on.steps_3_to_6(Lane::Low, low)
    }

    // The first step that applies.
    #[tactic(auto, unfolding(crate::specs::Sender::steps_1_to_6))]
    fn steps_1_to_6(self, low: &[u8], high: &[u8]) -> Sent
        requires { (valid (agreed self.settings) ≡ true)
            × (in_bounds (agreed self.settings) self ≡ true)
            × (largest_frame (agreed self.settings) ≤ length low.now)
            × (largest_frame (agreed self.settings) ≤ length high.now) }
        ensures { record { answer = next_answer result.answer; state = result.state }
            ≡ seen (steps_1_to_6 (agreed self.settings) (record { state = self; low = low.now; high = high.now }) self.cut self.on) }
    {
        if self.cut {
            return self.step1_cut_due();
        }
        match self.on {
            None => self.step2_no_lane(low, high),
            Some(Lane::Low) => self.steps_3_to_6(Lane::Low, low),
            Some(Lane::High) => self.steps_3_to_6(Lane::High, high),
        }
    }

    // Refusal 3, then the steps. (Not inlined: the short way below takes fewer instructions so.)
    #[inline(never)]
    #[tactic(auto, unfolding(crate::specs::Sender::next))]
    fn checked(self, low: &[u8], high: &[u8]) -> Sent
        requires { (valid (agreed self.settings) ≡ true)
            × (largest_frame (agreed self.settings) ≤ length low.now)
            × (largest_frame (agreed self.settings) ≤ length high.now) }
        ensures { record { answer = next_answer result.answer; state = result.state }
            ≡ seen (next (record { state = self; low = low.now; high = high.now })) }
    {
        if !self.in_bounds() {
            return self.next_refused(NextError::OutOfBounds);
        }
        self.steps_1_to_6(low, high)
    }

    // ---- the short way: most calls find a data octet due and nothing else; what is in bounds then takes few tests

    // A block with data left, inside the D of a lane's frame.
    fn data_due(self, q: LaneState) -> bool
        ensures { result ≡ true → DataDue (agreed self.settings) q self }
    {
        let frame = q.length as usize;
        0 < self.left
            && self.left <= 207
            && self.zeros <= 2
            && self.settings.least_frame() <= frame
            && frame <= self.settings.largest_frame()
            && q.position as usize + self.left as usize + self.zeros as usize <= frame + 1
    }

    // With low on the line. Here and for high `&` joins the cheap tests: all joined by `&&`, a call took 111 instructions in place of 90.
    fn low_sends_on(self) -> bool
        ensures { result ≡ true → SendsOn Lane.Low self × (self.high.length ≡ 0) }
    {
        let alone = !(self.suspended | self.cut)
            & (self.high.length == 0)
            & (self.high.position <= 1);
        alone && self.data_due(self.low)
    }

    // With high on the line.
    fn high_sends_on(self) -> bool
        ensures { result ≡ true → SendsOn Lane.High self }
    {
        let in_order = !self.cut & !(self.suspended & (self.low.length == 0));
        in_order && self.low.in_bounds(self.settings) && self.data_due(self.high)
    }

    // Next octet: refusals 3 (of the width or the limit), 2 and 3, in this order, change nothing. The two areas are two parameters, since they are
    // lent anew at each call: a load writes to one of them between.
    #[tactic(auto, unfolding(crate::specs::Sender::next))]
    pub fn next_octet(&mut self, low: &[u8], high: &[u8]) -> Result<Option<u8>, NextError>
        ensures { record { answer = next_answer result; state = self.new }
            ≡ seen (next (record { state = self.old; low = low.now; high = high.now })) }
    {
        if !self.settings.valid() {
            return Err(NextError::OutOfBounds);
        }
        let most = self.settings.largest_frame();
        if (low.len() < most) | (high.len() < most) {
            return Err(NextError::AreaTooShort);
        }
        // each way writes the state itself: written once behind the match, an octet took 107 instructions in place of 99
        match self.on {
            Some(Lane::Low) if self.low_sends_on() => {
                let sent = self.step5_data(Lane::Low, low);
                *self = sent.state;
                sent.answer
            }
            Some(Lane::High) if self.high_sends_on() => {
                let sent = self.step5_data(Lane::High, high);
                *self = sent.state;
                sent.answer
            }
            _ => {
                let sent = self.checked(low, high);
                *self = sent.state;
                sent.answer
            }
        }
    }
}
