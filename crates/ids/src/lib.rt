// The table of the 256 data ids: each id's kind and whether it may be read or written, from section 5.3 of document 000.
#![tactic(auto)]

ghost use Rattle.std.specs.Prelude.{◌≡◌, ◌<◌, ◌/◌, ◌%◌, ◌==◌};
ghost use Rattle.ids.specs.Ids.{number_of, kind_from, entry_of, kind_of, readable_of, writable_of};
ghost use Rattle.ids.specs.Names.{name_of};

// What an id's 16 bits are. The numbers are those of the table below.
#[derive(Clone, Copy, PartialEq, Eq)]
pub enum Kind {
    Raw = 0,
    Real = 1,
    S16 = 2,
    U16 = 3,
    Pair = 4,
    SPair = 5,
}

impl Kind {
    // As the table has it.
    pub fn number(self) -> u8
        ensures { result ≡ number_of self }
    {
        self as u8
    }

    // As the listing prints it.
    pub fn name(self) -> &'static str
        ensures { result.now ≡ name_of self }
    {
        match self {
            Kind::Raw => "raw",
            Kind::Real => "real",
            Kind::S16 => "s16",
            Kind::U16 => "u16",
            Kind::Pair => "pair",
            Kind::SPair => "spair",
        }
    }
}

// The kind that a number stands for; a number that stands for none is raw.
impl From<u8> for Kind {
    ghost from_gives = { λ n k. k ≡ kind_from n };

    fn from(n: u8) -> Self {
        match n {
            1 => Kind::Real,
            2 => Kind::S16,
            3 => Kind::U16,
            4 => Kind::Pair,
            5 => Kind::SPair,
            _ => Kind::Raw,
        }
    }
}

// A number an id: its kind's, and READ if it may be read, WRITTEN if it may be written; 0 for an id that is not listed. Behind it stands the id
// in decimal, and what the document calls it. It stays packed: 256 numbers that pack kind, readable and writable are the form that 01 names
// (docs/DECISIONS.md, 'Forms').
const TABLE: [u8; 256] = [
    12, // 0: Master status, slave status
    17, // 1: Control Setpoint
    20, // 2: Master configuration, Master MemberID code
    12, // 3: Slave configuration, Slave MemberID code
    20, // 4: Request-Code, Req-Response-Code
    12, // 5: Application-specific fault flags, OEM fault code
    12, // 6: Remote-parameter transfer-enable flags, read/write flags
    17, // 7: Cooling control signal
    17, // 8: Control Setpoint 2 (TsetCH2)
    9, // 9: Remote Override Room Setpoint
    12, // 10: Number of TSP's, not used
    28, // 11: TSP index no., TSP value
    12, // 12: Size of Fault Buffer, not used
    12, // 13: FHB-entry index no., FHB-entry value
    17, // 14: Maximum relative modulation level setting
    12, // 15: Maximum boiler capacity, minimum modulation level
    17, // 16: Room Setpoint
    9, // 17: Relative Modulation Level
    9, // 18: CH water pressure
    9, // 19: DHW flow rate
    28, // 20: Day of Week and hours, minutes
    28, // 21: Month, Day of Month
    27, // 22: Year
    17, // 23: Room Setpoint CH2
    17, // 24: Room temperature
    9, // 25: Boiler water temp.
    9, // 26: DHW temperature
    25, // 27: Outside temperature
    9, // 28: Return water temperature
    9, // 29: Solar storage temperature
    10, // 30: Solar collector temperature
    9, // 31: Flow temperature CH2
    9, // 32: DHW2 temperature
    10, // 33: Exhaust temperature
    9, // 34: Boiler heat exchanger temperature
    12, // 35: Boiler fan speed Setpoint, Boiler fan speed
    9, // 36: Flame current
    17, // 37: TrCH2
    25, // 38: Relative Humidity
    9, // 39: Remote Override Room Setpoint 2
    0, // 40: not listed
    0, // 41: not listed
    0, // 42: not listed
    0, // 43: not listed
    0, // 44: not listed
    0, // 45: not listed
    0, // 46: not listed
    0, // 47: not listed
    13, // 48: DHWsetp upp-bound, low-bound
    13, // 49: max CHsetp upp-bnd, low-bnd
    0, // 50: not listed
    0, // 51: not listed
    0, // 52: not listed
    0, // 53: not listed
    0, // 54: not listed
    0, // 55: not listed
    25, // 56: DHW Setpoint
    25, // 57: max CH water Setpoint
    0, // 58: not listed
    0, // 59: not listed
    0, // 60: not listed
    0, // 61: not listed
    0, // 62: not listed
    0, // 63: not listed
    0, // 64: not listed
    0, // 65: not listed
    0, // 66: not listed
    0, // 67: not listed
    0, // 68: not listed
    0, // 69: not listed
    12, // 70: Master status, status ventilation / heat-recovery
    20, // 71: Control Setpoint ventilation / heat-recovery (low byte)
    12, // 72: Application-specific fault flags, OEM fault code ventilation / heat-recovery
    11, // 73: OEM diagnostic code ventilation / heat-recovery
    12, // 74: Configuration, MemberID code ventilation / heat-recovery
    9, // 75: OpenTherm version ventilation / heat-recovery
    12, // 76: Ventilation / heat-recovery product type, product version
    12, // 77: Relative ventilation (low byte)
    28, // 78: Relative humidity (low byte)
    27, // 79: CO2 level
    9, // 80: Supply inlet temperature
    9, // 81: Supply outlet temperature
    9, // 82: Exhaust inlet temperature
    9, // 83: Exhaust outlet temperature
    11, // 84: Actual exhaust fan speed
    11, // 85: Actual inlet fan speed
    12, // 86: Remote-parameter transfer-enable flags, read/write flags ventilation / heat-recovery
    28, // 87: Nominal ventilation value (high byte)
    12, // 88: Number of TSP's, not used ventilation / heat-recovery
    28, // 89: TSP index no., TSP value ventilation / heat-recovery
    12, // 90: Size of Fault Buffer, not used ventilation / heat-recovery
    12, // 91: FHB-entry index no., FHB-entry value ventilation / heat-recovery
    0, // 92: not listed
    12, // 93: Brand index, Brand ASCII character
    12, // 94: Brand version index, Brand version ASCII character
    12, // 95: Brand serial number index, Brand serial number ASCII character
    27, // 96: Cooling Operation hours
    27, // 97: Power Cycles
    20, // 98: Type of sensor, RF and battery indication
    28, // 99: Remote Override Operating Mode DHW, Operating Mode Heating
    12, // 100: Reserved, Remote Override Room Setpoint function
    12, // 101: Master Solar Storage status, Solar Storage mode and status
    12, // 102: Solar Storage specific fault flags, OEM fault code Solar Storage
    12, // 103: Solar Storage configuration, Solar Storage member ID
    12, // 104: Solar Storage product type, product version
    12, // 105: Number of TSP's, not used Solar Storage
    28, // 106: TSP index no., TSP value Solar Storage
    12, // 107: Size of Fault Buffer, not used Solar Storage
    12, // 108: FHB-entry index no., FHB-entry value Solar Storage
    27, // 109: Electricity producer starts
    27, // 110: Electricity producer hours
    11, // 111: Electricity production
    27, // 112: Cumulative Electricity production
    27, // 113: Number of un-successful burner starts
    27, // 114: Number of times flame signal was too low
    11, // 115: OEM diagnostic code
    27, // 116: Successful Burner starts
    27, // 117: CH pump starts
    27, // 118: DHW pump/valve starts
    27, // 119: DHW burner starts
    27, // 120: Burner operation hours
    27, // 121: CH pump operation hours
    27, // 122: DHW pump/valve operation hours
    27, // 123: DHW burner operation hours
    17, // 124: OpenTherm version Master
    9, // 125: OpenTherm version Slave
    20, // 126: Master product type, product version
    12, // 127: Slave product type, product version
    0, // 128: not listed
    0, // 129: not listed
    0, // 130: not listed
    0, // 131: not listed
    0, // 132: not listed
    0, // 133: not listed
    0, // 134: not listed
    0, // 135: not listed
    0, // 136: not listed
    0, // 137: not listed
    0, // 138: not listed
    0, // 139: not listed
    0, // 140: not listed
    0, // 141: not listed
    0, // 142: not listed
    0, // 143: not listed
    0, // 144: not listed
    0, // 145: not listed
    0, // 146: not listed
    0, // 147: not listed
    0, // 148: not listed
    0, // 149: not listed
    0, // 150: not listed
    0, // 151: not listed
    0, // 152: not listed
    0, // 153: not listed
    0, // 154: not listed
    0, // 155: not listed
    0, // 156: not listed
    0, // 157: not listed
    0, // 158: not listed
    0, // 159: not listed
    0, // 160: not listed
    0, // 161: not listed
    0, // 162: not listed
    0, // 163: not listed
    0, // 164: not listed
    0, // 165: not listed
    0, // 166: not listed
    0, // 167: not listed
    0, // 168: not listed
    0, // 169: not listed
    0, // 170: not listed
    0, // 171: not listed
    0, // 172: not listed
    0, // 173: not listed
    0, // 174: not listed
    0, // 175: not listed
    0, // 176: not listed
    0, // 177: not listed
    0, // 178: not listed
    0, // 179: not listed
    0, // 180: not listed
    0, // 181: not listed
    0, // 182: not listed
    0, // 183: not listed
    0, // 184: not listed
    0, // 185: not listed
    0, // 186: not listed
    0, // 187: not listed
    0, // 188: not listed
    0, // 189: not listed
    0, // 190: not listed
    0, // 191: not listed
    0, // 192: not listed
    0, // 193: not listed
    0, // 194: not listed
    0, // 195: not listed
    0, // 196: not listed
    0, // 197: not listed
    0, // 198: not listed
    0, // 199: not listed
    0, // 200: not listed
    0, // 201: not listed
    0, // 202: not listed
    0, // 203: not listed
    0, // 204: not listed
    0, // 205: not listed
    0, // 206: not listed
    0, // 207: not listed
    0, // 208: not listed
    0, // 209: not listed
    0, // 210: not listed
    0, // 211: not listed
    0, // 212: not listed
    0, // 213: not listed
    0, // 214: not listed
    0, // 215: not listed
    0, // 216: not listed
    0, // 217: not listed
    0, // 218: not listed
    0, // 219: not listed
    0, // 220: not listed
    0, // 221: not listed
    0, // 222: not listed
    0, // 223: not listed
    0, // 224: not listed
    0, // 225: not listed
    0, // 226: not listed
    0, // 227: not listed
    0, // 228: not listed
    0, // 229: not listed
    0, // 230: not listed
    0, // 231: not listed
    0, // 232: not listed
    0, // 233: not listed
    0, // 234: not listed
    0, // 235: not listed
    0, // 236: not listed
    0, // 237: not listed
    0, // 238: not listed
    0, // 239: not listed
    0, // 240: not listed
    0, // 241: not listed
    0, // 242: not listed
    0, // 243: not listed
    0, // 244: not listed
    0, // 245: not listed
    0, // 246: not listed
    0, // 247: not listed
    0, // 248: not listed
    0, // 249: not listed
    0, // 250: not listed
    0, // 251: not listed
    0, // 252: not listed
    0, // 253: not listed
    0, // 254: not listed
    0, // 255: not listed
];

const READ: u8 = 8;

const WRITTEN: u8 = 16;

fn entry(id: u8) -> u8
    ensures { result ≡ entry_of id }
{
    TABLE[id as usize]
}

fn has(id: u8, mark: u8) -> bool
    requires { 0 < mark }
    ensures { result ≡ (entry_of id / mark % 2 == 1) }
{
    entry(id) / mark % 2 == 1
}

#[tactic(auto, unfolding(crate::specs::Ids::kind_of))]
pub fn kind_of(id: u8) -> Kind
    ensures { result ≡ kind_of id }
{
    Kind::from(entry(id) % 8)
}

#[tactic(auto, unfolding(crate::specs::Ids::readable_of))]
pub fn readable(id: u8) -> bool
    ensures { result ≡ readable_of id }
{
    has(id, READ)
}

#[tactic(auto, unfolding(crate::specs::Ids::writable_of))]
pub fn writable(id: u8) -> bool
    ensures { result ≡ writable_of id }
{
    has(id, WRITTEN)
}
