// The check sequence's vectors: document 01, "Check sequence", "Marked frames and false friends" and refusal 14; RFC 1662, C.1 to C.3.
// A register is shown high octet first.
use crate::answers::Answers;
use crate::rows;
use crate::rows::Row;
use std::io::Print;

pub(crate) fn run<R: Print>(rt: &R) {
    // e: an entry of the table, its place for the settings. RFC 1662's table has 0, 1 and 255 right, document 01 gives 11 and 13, and RFC
    // 1662's generator (C.1) the four others.
    // f, r, g: of a packet its FCS; of both the register, which ends at F0B8, and whether the frame is good. Document 01's marked frames
    // (d), (a) and (c), the empty packet of its false friends, and refusal 14's example.
    rows::compare_all(
        rt,
        0,
        0,
        b"e\x00\x00\x00\x07\x00\x02entry 0\x00\x00\
        e\x01\x00\x00\x07\x00\x02entry 1\x11\x89\
        e\x0b\x00\x00\x08\x00\x02entry 11\xbe\xd3\
        e\x0d\x00\x00\x08\x00\x02entry 13\xdb\xe5\
        e\x38\x00\x00\x08\x00\x02entry 56\xbd\xcb\
        e\x58\x00\x00\x08\x00\x02entry 88\xde\xcd\
        e\x6b\x00\x00\x09\x00\x02entry 107\xdd\xd5\
        e\x8f\x00\x00\x09\x00\x02entry 143\x7c\xff\
        e\xff\x00\x00\x09\x00\x02entry 255\x0f\x78\
        f\x00\x00\x00\x06\x09\x02FCS of123456789\x6e\x90\
        r\x00\x00\x00\x0d\x0b\x02register over123456789\x6e\x90\xf0\xb8\
        g\x00\x00\x00\x04\x0b\x01good123456789\x6e\x90\x01\
        f\x00\x00\x00\x06\x02\x02FCS of\x00\x00\x47\x0f\
        r\x00\x00\x00\x0d\x04\x02register over\x00\x00\x47\x0f\xf0\xb8\
        g\x00\x00\x00\x04\x04\x01good\x00\x00\x47\x0f\x01\
        f\x00\x00\x00\x06\x02\x02FCS of\x7e\x7e\x6a\xff\
        r\x00\x00\x00\x0d\x04\x02register over\x7e\x7e\x6a\xff\xf0\xb8\
        g\x00\x00\x00\x04\x04\x01good\x7e\x7e\x6a\xff\x01\
        f\x00\x00\x00\x06\x00\x02FCS of\x00\x00\
        r\x00\x00\x00\x0d\x02\x02register over\x00\x00\xf0\xb8\
        g\x00\x00\x00\x04\x02\x01good\x00\x00\x01\
        g\x00\x00\x00\x04\x04\x01good1111\x00",
    );
    // E, F, Q, G: the same of 32 bits; N: the complement that is sent, high octet first. The entries that RFC 1662's table misprints, and four that
    // it has right; the packets of the marked frames, and the test of RFC 1662's C.3: a packet and its FCS end at DEBB20E3. The numbers are
    // zlib's, which has the same check.
    rows::compare_all(
        rt,
        0,
        0,
        b"E\x00\x00\x00\x10\x00\x0432 bits, entry 0\x00\x00\x00\x00\
        E\x01\x00\x00\x10\x00\x0432 bits, entry 1w\x070\x96\
        E\x0f\x00\x00\x11\x00\x0432 bits, entry 15\x90\xbf\x1d\x91\
        E\x14\x00\x00\x11\x00\x0432 bits, entry 20\x1a\xda\xd4}\
        E\x66\x00\x00\x12\x00\x0432 bits, entry 102\xa4\xd1\xc4m\
        E\x80\x00\x00\x12\x00\x0432 bits, entry 128\xed\xb8\x83 \
        E\x99\x00\x00\x12\x00\x0432 bits, entry 153\x89\xd3+\xe0\
        E\xa1\x00\x00\x12\x00\x0432 bits, entry 161\xa1\xd1\x93\x7e\
        E\xa9\x00\x00\x12\x00\x0432 bits, entry 169\xaf\x0a\x1bL\
        E\xe5\x00\x00\x12\x00\x0432 bits, entry 229\xd0`\x16\xf7\
        E\xed\x00\x00\x12\x00\x0432 bits, entry 237\xde\xbb\x9e\xc5\
        E\xff\x00\x00\x12\x00\x0432 bits, entry 255-\x02\xef\x8d\
        N\x00\x00\x00\x28\x09\x0432 bits, complement of the register over123456789\xcb\xf49&\
        F\x00\x00\x00\x0f\x09\x0432 bits, FCS of123456789&9\xf4\xcb\
        Q\x00\x00\x00\x16\x0d\x0432 bits, register over123456789&9\xf4\xcb\xde\xbb \xe3\
        G\x00\x00\x00\x0d\x0d\x0132 bits, good123456789&9\xf4\xcb\x01\
        F\x00\x00\x00\x0f\x02\x0432 bits, FCS of\x00\x00\xff\x12\xd9A\
        Q\x00\x00\x00\x16\x06\x0432 bits, register over\x00\x00\xff\x12\xd9A\xde\xbb \xe3\
        G\x00\x00\x00\x0d\x06\x0132 bits, good\x00\x00\xff\x12\xd9A\x01\
        F\x00\x00\x00\x0f\x02\x0432 bits, FCS of\x7e\x7e\xbc\x1a\xd8G\
        Q\x00\x00\x00\x16\x06\x0432 bits, register over\x7e\x7e\xbc\x1a\xd8G\xde\xbb \xe3\
        G\x00\x00\x00\x0d\x06\x0132 bits, good\x7e\x7e\xbc\x1a\xd8G\x01\
        F\x00\x00\x00\x0f\x00\x0432 bits, FCS of\x00\x00\x00\x00\
        Q\x00\x00\x00\x16\x04\x0432 bits, register over\x00\x00\x00\x00\xde\xbb \xe3\
        G\x00\x00\x00\x0d\x04\x0132 bits, good\x00\x00\x00\x00\x01\
        Q\x00\x00\x00\x16\x09\x0432 bits, register over1234567894\x0b\xc6\xd9\
        G\x00\x00\x00\x0d\x06\x0132 bits, good111111\x00",
    );
}

// A letter for each width: the rows have no width of their own here.
pub(crate) fn answer(row: &Row) -> Answers {
    let octets = row.given;
    match row.asked {
        // A register of 0 fed the octet i is entry i.
        b'e' => Answers::of(&fcs::pppfcs16(0, &[row.settings]).to_be_bytes()),
        b'E' => Answers::of(&fcs::pppfcs32(0, &[row.settings]).to_be_bytes()),
        b'F' => Answers::of(&fcs::fcs::<u32>(octets)),
        b'N' => Answers::of(&(!fcs::register::<u32>(octets)).to_be_bytes()),
        b'Q' => Answers::of(&fcs::register::<u32>(octets).to_be_bytes()),
        b'G' => Answers::of(&[fcs::good::<u32>(octets) as u8]),
        b'f' => Answers::of(&fcs::fcs::<u16>(octets)),
        b'r' => Answers::of(&fcs::register::<u16>(octets).to_be_bytes()),
        _ => Answers::of(&[fcs::good::<u16>(octets) as u8]),
    }
}
