// The types of atoms and the component subtype that the reader knows: four characters as a big-endian number.

// The parent of the top-level atoms: the file itself, which is no atom.
pub const FILE: u32 = 0;

pub const MOOV: u32 = 0x6d6f6f76;

pub const TRAK: u32 = 0x7472616b;

pub const EDTS: u32 = 0x65647473;

pub const MDIA: u32 = 0x6d646961;

pub const MINF: u32 = 0x6d696e66;

pub const STBL: u32 = 0x7374626c;

pub const DINF: u32 = 0x64696e66;

pub const MVHD: u32 = 0x6d766864;

pub const TKHD: u32 = 0x746b6864;

pub const MDHD: u32 = 0x6d646864;

pub const HDLR: u32 = 0x68646c72;

pub const ELST: u32 = 0x656c7374;

pub const STTS: u32 = 0x73747473;

pub const CTTS: u32 = 0x63747473;

pub const STSC: u32 = 0x73747363;

pub const STSZ: u32 = 0x7374737a;

pub const STCO: u32 = 0x7374636f;

pub const CO64: u32 = 0x636f3634;

pub const STSS: u32 = 0x73747373;

pub const STSD: u32 = 0x73747364;

pub const DREF: u32 = 0x64726566;

pub const PRFL: u32 = 0x7072666c;

// The component subtype of a track of pictures.
pub const VIDE: u32 = 0x76696465;
