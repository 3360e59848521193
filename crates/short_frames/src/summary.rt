// A summary of the lines, for the gate: the first line of each block, then how many lines and bytes there are, and their CRC-32.
use std::io::Result;

const REFLECTED_POLYNOMIAL: u32 = 0xEDB88320;

const ALL_ONES: u32 = 0xFFFFFFFF;

#[derive(Clone, Copy, Debug, PartialEq, Eq)]
pub struct Summary {
    lines: u64,
    bytes: u64,
    crc: u32,
}

// The CRC-32 with one byte more, lowest bit first.
fn crc_with(crc: u32, byte: u8) -> u32 {
    let mut crc = crc ^ u32::from(byte);
    for _ in 0..8 {
        let lowest = crc % 2;
        crc /= 2;
        if lowest == 1 {
            crc ^= REFLECTED_POLYNOMIAL;
        }
    }
    crc
}

fn crc_of(crc: u32, text: &[u8]) -> u32 {
    text.iter().fold(crc, |crc, byte| crc_with(crc, *byte))
}

// The first line of the text.
fn print_first(rt: &impl Print, text: &[u8]) -> Result<()> {
    let end = text
        .iter()
        .position(|byte| *byte == b'\n')
        .unwrap_or(text.len());
    rt.write_all(&text[..end])?;
    rt.print("\n")
}

impl Summary {
    pub(crate) fn empty() -> Summary {
        Summary {
            lines: 0,
            bytes: 0,
            crc: ALL_ONES,
        }
    }

    // Takes a block in, and prints its first line.
    pub(crate) fn with(self, rt: &impl Print, lines: usize, text: &[u8]) -> Result<Summary> {
        print_first(rt, text)?;
        Ok(Summary {
            lines: self.lines.wrapping_add(lines as u64),
            bytes: self.bytes.wrapping_add(text.len() as u64),
            crc: crc_of(self.crc, text),
        })
    }

    pub(crate) fn print(self, rt: &impl Print) -> Result<()> {
        let lines = self.lines;
        let bytes = self.bytes;
        let crc = self.crc ^ ALL_ONES;
        println!(rt; "{lines} lines, {bytes} bytes, CRC-32 {crc:08x}")
    }
}
