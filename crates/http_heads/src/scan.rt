//! Where a head ends.
ghost use Rattle.std.specs.Prelude.{◌≡◌, ◌+◌, ◌<◌, ◌^◌, length};
ghost use Rattle.http_heads.specs.Scan.{step, scan};

/// The most bytes of a head.
pub const MAX_HEAD: usize = 16_384;

/// Where a scan stands in a head.
#[derive(Clone, Copy, Debug, PartialEq, Eq)]
pub enum Scan {
    /// At the start of a line, after empty lines alone.
    Blank,
    /// Behind a CR at such a place.
    BlankReturn,
    /// In a line that isn't empty.
    Text,
    /// At the start of a line, after one that isn't empty.
    Start,
    /// Behind a CR at such a place.
    Return,
    /// Behind the first empty line after one that isn't.
    End,
}

impl Scan {
    fn step(self, byte: u8) -> Scan
        ensures { result ≡ step self byte }
    {
        match self {
            Scan::Blank => {
                if byte == b'\n' {
                    Scan::Blank
                } else if byte == b'\r' {
                    Scan::BlankReturn
                } else {
                    Scan::Text
                }
            }
            Scan::BlankReturn => {
                if byte == b'\n' {
                    Scan::Blank
                } else {
                    Scan::Text
                }
            }
            Scan::Text => {
                if byte == b'\n' {
                    Scan::Start
                } else {
                    Scan::Text
                }
            }
            Scan::Start => {
                if byte == b'\n' {
                    Scan::End
                } else if byte == b'\r' {
                    Scan::Return
                } else {
                    Scan::Text
                }
            }
            Scan::Return => { if byte == b'\n' { Scan::End } else { Scan::Text } }
            Scan::End => Scan::End,
        }
    }

    /// Goes over the bytes, `before` many behind the start. `Ok` is how many there are up to the end of the head, `Err`
    /// where the scan stands after all of them.
    pub fn over(self, before: usize, bytes: &[u8]) -> Result<usize, Scan>
        requires { before + length bytes.now < 2 ^ 64 }
        ensures { result ≡ scan before self bytes.now }
    {
        let mut at = self;
        let mut count = before;
        for byte in bytes {
            count += 1;
            // Most bytes stand in a line.
            if at == Scan::Text && *byte != b'\n' {
                continue;
            }
            at = at.step(*byte);
            if at == Scan::End {
                return Ok(count);
            }
        }
        Err(at)
    }
}
