// What a packet carries.
ghost use Rattle.std.specs.Prelude.{◌≡◌, ◌<◌};
ghost use Rattle.ts_make.specs.Made.{kind_of, pid_of, table_of};

/// What a packet of the stream carries: a program association section, video, audio, a service description section, or
/// nothing.
#[derive(Clone, Copy, Debug, PartialEq, Eq)]
pub enum Kind {
    Association,
    Video,
    Audio,
    Service,
    Null,
}

impl Kind {
    /// What a word chooses.
    pub fn of(word: u32) -> Kind
        ensures { result ≡ kind_of word }
    {
        match word % 16 {
            0..=9 => Kind::Video,
            10..=12 => Kind::Audio,
            13 => Kind::Association,
            14 => Kind::Null,
            _ => Kind::Service,
        }
    }

    /// Its PID.
    pub fn pid(self) -> u16
        ensures value { result ≡ pid_of self }
        ensures fits { result < 8192 }
    {
        match self {
            Kind::Association => 0,
            Kind::Video => 256,
            Kind::Audio => 257,
            Kind::Service => 512,
            Kind::Null => 8191,
        }
    }

    /// The table_id of its section, where it carries one.
    pub fn table_id(self) -> Option<u8>
        ensures { result ≡ table_of self }
    {
        match self {
            Kind::Association => Some(0x00),
            Kind::Service => Some(0x42),
            Kind::Video | Kind::Audio | Kind::Null => None,
        }
    }
}
