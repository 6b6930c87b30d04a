// The tables of the built-in symbols, as tools/symbol_table.py prints them.
use crate::Sort;

// How many symbols there are.
pub const SYMBOLS: usize = 45;

// How many bytes their names have.
pub const NAME_BYTES: usize = 451;

// The symbols' names, one after the other.
pub const NAMES: [u8; NAME_BYTES] = [
    b'o', // org
    b'r', b'g', b'd', // dod
    b'o', b'd', b'i', // internet
    b'n', b't', b'e', b'r', b'n', b'e', b't', b'd', // directory
    b'i', b'r', b'e', b'c', b't', b'o', b'r', b'y', b'm', // mgmt
    b'g', b'm', b't', b'e', // experimental
    b'x', b'p', b'e', b'r', b'i', b'm', b'e', b'n', b't', b'a', b'l', b'p', // private
    b'r', b'i', b'v', b'a', b't', b'e', b's', // security
    b'e', b'c', b'u', b'r', b'i', b't', b'y', b's', // snmpV2
    b'n', b'm', b'p', b'V', b'2', b'm', // mib-2
    b'i', b'b', b'-', b'2', b't', // transmission
    b'r', b'a', b'n', b's', b'm', b'i', b's', b's', b'i', b'o', b'n', b'e', // enterprises
    b'n', b't', b'e', b'r', b'p', b'r', b'i', b's', b'e', b's', b's', // snmpDomains
    b'n', b'm', b'p', b'D', b'o', b'm', b'a', b'i', b'n', b's', b's', // snmpProxys
    b'n', b'm', b'p', b'P', b'r', b'o', b'x', b'y', b's', b's', // snmpModules
    b'n', b'm', b'p', b'M', b'o', b'd', b'u', b'l', b'e', b's', b'z', // zeroDotZero
    b'e', b'r', b'o', b'D', b'o', b't', b'Z', b'e', b'r', b'o', b'I', // Integer32
    b'n', b't', b'e', b'g', b'e', b'r', b'3', b'2', b'I', // IpAddress
    b'p', b'A', b'd', b'd', b'r', b'e', b's', b's', b'C', // Counter32
    b'o', b'u', b'n', b't', b'e', b'r', b'3', b'2', b'G', // Gauge32
    b'a', b'u', b'g', b'e', b'3', b'2', b'U', // Unsigned32
    b'n', b's', b'i', b'g', b'n', b'e', b'd', b'3', b'2', b'T', // TimeTicks
    b'i', b'm', b'e', b'T', b'i', b'c', b'k', b's', b'O', // Opaque
    b'p', b'a', b'q', b'u', b'e', b'C', // Counter64
    b'o', b'u', b'n', b't', b'e', b'r', b'6', b'4', b'M', // MODULE-IDENTITY
    b'O', b'D', b'U', b'L', b'E', b'-', b'I', b'D', b'E', b'N', b'T', b'I', b'T', b'Y', b'O', // OBJECT-IDENTITY
    b'B', b'J', b'E', b'C', b'T', b'-', b'I', b'D', b'E', b'N', b'T', b'I', b'T', b'Y', b'O', // OBJECT-TYPE
    b'B', b'J', b'E', b'C', b'T', b'-', b'T', b'Y', b'P', b'E', b'N', // NOTIFICATION-TYPE
    b'O', b'T', b'I', b'F', b'I', b'C', b'A', b'T', b'I', b'O', b'N', b'-', b'T', b'Y', b'P', b'E',
    b'T', // TEXTUAL-CONVENTION
    b'E', b'X', b'T', b'U', b'A', b'L', b'-', b'C', b'O', b'N', b'V', b'E', b'N', b'T', b'I', b'O',
    b'N', b'D', // DisplayString
    b'i', b's', b'p', b'l', b'a', b'y', b'S', b't', b'r', b'i', b'n', b'g', b'P', // PhysAddress
    b'h', b'y', b's', b'A', b'd', b'd', b'r', b'e', b's', b's', b'M', // MacAddress
    b'a', b'c', b'A', b'd', b'd', b'r', b'e', b's', b's', b'D', // DateAndTime
    b'a', b't', b'e', b'A', b'n', b'd', b'T', b'i', b'm', b'e', b'T', // TAddress
    b'A', b'd', b'd', b'r', b'e', b's', b's', b'T', // TestAndIncr
    b'e', b's', b't', b'A', b'n', b'd', b'I', b'n', b'c', b'r', b'T', // TimeInterval
    b'i', b'm', b'e', b'I', b'n', b't', b'e', b'r', b'v', b'a', b'l', b'T', // TruthValue
    b'r', b'u', b't', b'h', b'V', b'a', b'l', b'u', b'e', b'R', // RowStatus
    b'o', b'w', b'S', b't', b'a', b't', b'u', b's', b'S', // StorageType
    b't', b'o', b'r', b'a', b'g', b'e', b'T', b'y', b'p', b'e', b'A', // AutonomousType
    b'u', b't', b'o', b'n', b'o', b'm', b'o', b'u', b's', b'T', b'y', b'p', b'e', b'I', // InstancePointer
    b'n', b's', b't', b'a', b'n', b'c', b'e', b'P', b'o', b'i', b'n', b't', b'e', b'r', b'V', // VariablePointer
    b'a', b'r', b'i', b'a', b'b', b'l', b'e', b'P', b'o', b'i', b'n', b't', b'e', b'r', b'R', // RowPointer
    b'o', b'w', b'P', b'o', b'i', b'n', b't', b'e', b'r', b'T', // TDomain
    b'D', b'o', b'm', b'a', b'i', b'n', b'T', // TimeStamp
    b'i', b'm', b'e', b'S', b't', b'a', b'm', b'p',
];

// Where each symbol's name starts, and where the last one ends.
pub const NAME_STARTS: [u16; SYMBOLS + 1] = [
    0, // org
    3, // dod
    6, // internet
    14, // directory
    23, // mgmt
    27, // experimental
    39, // private
    46, // security
    54, // snmpV2
    60, // mib-2
    65, // transmission
    77, // enterprises
    88, // snmpDomains
    99, // snmpProxys
    109, // snmpModules
    120, // zeroDotZero
    131, // Integer32
    140, // IpAddress
    149, // Counter32
    158, // Gauge32
    165, // Unsigned32
    175, // TimeTicks
    184, // Opaque
    190, // Counter64
    199, // MODULE-IDENTITY
    214, // OBJECT-IDENTITY
    229, // OBJECT-TYPE
    240, // NOTIFICATION-TYPE
    257, // TEXTUAL-CONVENTION
    275, // DisplayString
    288, // PhysAddress
    299, // MacAddress
    309, // DateAndTime
    320, // TAddress
    328, // TestAndIncr
    339, // TimeInterval
    351, // TruthValue
    361, // RowStatus
    370, // StorageType
    381, // AutonomousType
    395, // InstancePointer
    410, // VariablePointer
    425, // RowPointer
    435, // TDomain
    442, // TimeStamp
    451,
];

// The module that offers each symbol.
pub const MODULES: [u8; SYMBOLS] = [
    0, // org
    0, // dod
    0, // internet
    0, // directory
    0, // mgmt
    0, // experimental
    0, // private
    0, // security
    0, // snmpV2
    0, // mib-2
    0, // transmission
    0, // enterprises
    0, // snmpDomains
    0, // snmpProxys
    0, // snmpModules
    0, // zeroDotZero
    0, // Integer32
    0, // IpAddress
    0, // Counter32
    0, // Gauge32
    0, // Unsigned32
    0, // TimeTicks
    0, // Opaque
    0, // Counter64
    0, // MODULE-IDENTITY
    0, // OBJECT-IDENTITY
    0, // OBJECT-TYPE
    0, // NOTIFICATION-TYPE
    1, // TEXTUAL-CONVENTION
    1, // DisplayString
    1, // PhysAddress
    1, // MacAddress
    1, // DateAndTime
    1, // TAddress
    1, // TestAndIncr
    1, // TimeInterval
    1, // TruthValue
    1, // RowStatus
    1, // StorageType
    1, // AutonomousType
    1, // InstancePointer
    1, // VariablePointer
    1, // RowPointer
    1, // TDomain
    1, // TimeStamp
];

// What each symbol is: a type with its class.
pub const SORTS: [Sort; SYMBOLS] = [
    Sort::Oid, // org
    Sort::Oid, // dod
    Sort::Oid, // internet
    Sort::Oid, // directory
    Sort::Oid, // mgmt
    Sort::Oid, // experimental
    Sort::Oid, // private
    Sort::Oid, // security
    Sort::Oid, // snmpV2
    Sort::Oid, // mib-2
    Sort::Oid, // transmission
    Sort::Oid, // enterprises
    Sort::Oid, // snmpDomains
    Sort::Oid, // snmpProxys
    Sort::Oid, // snmpModules
    Sort::Oid, // zeroDotZero
    Sort::Type(1), // Integer32
    Sort::Type(6), // IpAddress
    Sort::Type(7), // Counter32
    Sort::Type(8), // Gauge32
    Sort::Type(9), // Unsigned32
    Sort::Type(10), // TimeTicks
    Sort::Type(11), // Opaque
    Sort::Type(12), // Counter64
    Sort::Macro, // MODULE-IDENTITY
    Sort::Macro, // OBJECT-IDENTITY
    Sort::Macro, // OBJECT-TYPE
    Sort::Macro, // NOTIFICATION-TYPE
    Sort::Macro, // TEXTUAL-CONVENTION
    Sort::Type(3), // DisplayString
    Sort::Type(3), // PhysAddress
    Sort::Type(3), // MacAddress
    Sort::Type(3), // DateAndTime
    Sort::Type(3), // TAddress
    Sort::Type(1), // TestAndIncr
    Sort::Type(1), // TimeInterval
    Sort::Type(2), // TruthValue
    Sort::Type(2), // RowStatus
    Sort::Type(2), // StorageType
    Sort::Type(4), // AutonomousType
    Sort::Type(4), // InstancePointer
    Sort::Type(4), // VariablePointer
    Sort::Type(4), // RowPointer
    Sort::Type(4), // TDomain
    Sort::Type(10), // TimeStamp
];

// The numbers of the OIDs, one after the other.
pub const NUMBERS: [u32; 78] = [
    1, // org 0
    3, // org 1
    1, // dod 0
    3, // dod 1
    6, // dod 2
    1, // internet 0
    3, // internet 1
    6, // internet 2
    1, // internet 3
    1, // directory 0
    3, // directory 1
    6, // directory 2
    1, // directory 3
    1, // directory 4
    1, // mgmt 0
    3, // mgmt 1
    6, // mgmt 2
    1, // mgmt 3
    2, // mgmt 4
    1, // experimental 0
    3, // experimental 1
    6, // experimental 2
    1, // experimental 3
    3, // experimental 4
    1, // private 0
    3, // private 1
    6, // private 2
    1, // private 3
    4, // private 4
    1, // security 0
    3, // security 1
    6, // security 2
    1, // security 3
    5, // security 4
    1, // snmpV2 0
    3, // snmpV2 1
    6, // snmpV2 2
    1, // snmpV2 3
    6, // snmpV2 4
    1, // mib-2 0
    3, // mib-2 1
    6, // mib-2 2
    1, // mib-2 3
    2, // mib-2 4
    1, // mib-2 5
    1, // transmission 0
    3, // transmission 1
    6, // transmission 2
    1, // transmission 3
    2, // transmission 4
    1, // transmission 5
    10, // transmission 6
    1, // enterprises 0
    3, // enterprises 1
    6, // enterprises 2
    1, // enterprises 3
    4, // enterprises 4
    1, // enterprises 5
    1, // snmpDomains 0
    3, // snmpDomains 1
    6, // snmpDomains 2
    1, // snmpDomains 3
    6, // snmpDomains 4
    1, // snmpDomains 5
    1, // snmpProxys 0
    3, // snmpProxys 1
    6, // snmpProxys 2
    1, // snmpProxys 3
    6, // snmpProxys 4
    2, // snmpProxys 5
    1, // snmpModules 0
    3, // snmpModules 1
    6, // snmpModules 2
    1, // snmpModules 3
    6, // snmpModules 4
    3, // snmpModules 5
    0, // zeroDotZero 0
    0, // zeroDotZero 1
];

// Where each symbol's numbers start, and where the last ones end.
pub const NUMBER_STARTS: [u16; SYMBOLS + 1] = [
    0, // org
    2, // dod
    5, // internet
    9, // directory
    14, // mgmt
    19, // experimental
    24, // private
    29, // security
    34, // snmpV2
    39, // mib-2
    45, // transmission
    52, // enterprises
    58, // snmpDomains
    64, // snmpProxys
    70, // snmpModules
    76, // zeroDotZero
    78, // Integer32
    78, // IpAddress
    78, // Counter32
    78, // Gauge32
    78, // Unsigned32
    78, // TimeTicks
    78, // Opaque
    78, // Counter64
    78, // MODULE-IDENTITY
    78, // OBJECT-IDENTITY
    78, // OBJECT-TYPE
    78, // NOTIFICATION-TYPE
    78, // TEXTUAL-CONVENTION
    78, // DisplayString
    78, // PhysAddress
    78, // MacAddress
    78, // DateAndTime
    78, // TAddress
    78, // TestAndIncr
    78, // TimeInterval
    78, // TruthValue
    78, // RowStatus
    78, // StorageType
    78, // AutonomousType
    78, // InstancePointer
    78, // VariablePointer
    78, // RowPointer
    78, // TDomain
    78, // TimeStamp
    78,
];

// The modules' names, one after the other.
pub const MODULE_NAMES: [u8; 19] = [
    b'S', // SNMPv2-SMI
    b'N', b'M', b'P', b'v', b'2', b'-', b'S', b'M', b'I', b'S', // SNMPv2-TC
    b'N', b'M', b'P', b'v', b'2', b'-', b'T', b'C',
];

// Where each module's name starts, and where the last one ends.
pub const MODULE_STARTS: [u16; 3] = [
    0, // SNMPv2-SMI
    10, // SNMPv2-TC
    19,
];

// `iso`.
pub const ISO: [u8; 3] = [
    b'i', // iso
    b's', b'o',
];
