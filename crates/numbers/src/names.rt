// Document 01, "Records", Names: the numbers of the 88 attributes that the rules look up, under their names in the game.
// Numbers: keys by which the catalogue's sorted names are searched; an enum of 88 would be cast at each search.
// LOADS: load, then output.
pub const CPU_LOAD: u32 = 0;

pub const CPU_OUTPUT: u32 = 1;

pub const POWER_LOAD: u32 = 2;

pub const POWER_OUTPUT: u32 = 3;

pub const UPGRADE_LOAD: u32 = 4;

pub const UPGRADE_CAPACITY: u32 = 5;

pub const DRONE_CAPACITY_LOAD: u32 = 6;

pub const DRONE_CAPACITY: u32 = 7;

pub const DRONE_BANDWIDTH_LOAD: u32 = 8;

pub const DRONE_BANDWIDTH: u32 = 9;

pub const FIGHTER_CAPACITY_LOAD: u32 = 10;

pub const FIGHTER_CAPACITY: u32 = 11;

pub const FIGHTER_TUBES_USED: u32 = 12;

pub const FIGHTER_TUBES: u32 = 13;

pub const FIGHTER_LIGHT_SLOTS_USED: u32 = 14;

pub const FIGHTER_LIGHT_SLOTS: u32 = 15;

pub const FIGHTER_SUPPORT_SLOTS_USED: u32 = 16;

pub const FIGHTER_SUPPORT_SLOTS: u32 = 17;

pub const FIGHTER_HEAVY_SLOTS_USED: u32 = 18;

pub const FIGHTER_HEAVY_SLOTS: u32 = 19;

// resource.rs, by itself.
pub const MAX_ACTIVE_DRONES: u32 = 20;

pub const CAPACITY: u32 = 21;

// RACKS.
pub const HI_SLOTS: u32 = 22;

pub const MED_SLOTS: u32 = 23;

pub const LOW_SLOTS: u32 = 24;

pub const RIG_SLOTS: u32 = 25;

pub const MAX_SUBSYSTEMS: u32 = 26;

pub const SERVICE_SLOTS: u32 = 27;

// HARDPOINTS.
pub const TURRET_SLOTS_LEFT: u32 = 28;

pub const LAUNCHER_SLOTS_LEFT: u32 = 29;

// slot.rs and item.rs, by themselves.
pub const IMPLANTNESS: u32 = 30;

pub const BOOSTERNESS: u32 = 31;

pub const SUBSYSTEM_SLOT: u32 = 32;

pub const RIG_SIZE: u32 = 33;

// SHIP_TYPES.
pub const FITS_TO_SHIP_TYPE: u32 = 34;

pub const CAN_FIT_SHIP_TYPE_1: u32 = 35;

pub const CAN_FIT_SHIP_TYPE_2: u32 = 36;

pub const CAN_FIT_SHIP_TYPE_3: u32 = 37;

pub const CAN_FIT_SHIP_TYPE_4: u32 = 38;

pub const CAN_FIT_SHIP_TYPE_5: u32 = 39;

pub const CAN_FIT_SHIP_TYPE_6: u32 = 40;

pub const CAN_FIT_SHIP_TYPE_7: u32 = 41;

pub const CAN_FIT_SHIP_TYPE_8: u32 = 42;

pub const CAN_FIT_SHIP_TYPE_9: u32 = 43;

pub const CAN_FIT_SHIP_TYPE_10: u32 = 44;

pub const CAN_FIT_SHIP_TYPE_11: u32 = 45;

pub const CAN_FIT_SHIP_TYPE_12: u32 = 46;

// SHIP_GROUPS.
pub const CAN_FIT_SHIP_GROUP_01: u32 = 47;

pub const CAN_FIT_SHIP_GROUP_02: u32 = 48;

pub const CAN_FIT_SHIP_GROUP_03: u32 = 49;

pub const CAN_FIT_SHIP_GROUP_04: u32 = 50;

pub const CAN_FIT_SHIP_GROUP_05: u32 = 51;

pub const CAN_FIT_SHIP_GROUP_06: u32 = 52;

pub const CAN_FIT_SHIP_GROUP_07: u32 = 53;

pub const CAN_FIT_SHIP_GROUP_08: u32 = 54;

pub const CAN_FIT_SHIP_GROUP_09: u32 = 55;

pub const CAN_FIT_SHIP_GROUP_10: u32 = 56;

pub const CAN_FIT_SHIP_GROUP_11: u32 = 57;

pub const CAN_FIT_SHIP_GROUP_12: u32 = 58;

pub const CAN_FIT_SHIP_GROUP_13: u32 = 59;

pub const CAN_FIT_SHIP_GROUP_14: u32 = 60;

pub const CAN_FIT_SHIP_GROUP_15: u32 = 61;

pub const CAN_FIT_SHIP_GROUP_16: u32 = 62;

pub const CAN_FIT_SHIP_GROUP_17: u32 = 63;

pub const CAN_FIT_SHIP_GROUP_18: u32 = 64;

pub const CAN_FIT_SHIP_GROUP_19: u32 = 65;

pub const CAN_FIT_SHIP_GROUP_20: u32 = 66;

// item.rs, by itself.
pub const VOLUME: u32 = 67;

pub const IS_CAPITAL_SIZE: u32 = 68;

// STANDUP_FIGHTERS.
pub const FIGHTER_SQUADRON_IS_STANDUP_LIGHT: u32 = 69;

pub const FIGHTER_SQUADRON_IS_STANDUP_SUPPORT: u32 = 70;

pub const FIGHTER_SQUADRON_IS_STANDUP_HEAVY: u32 = 71;

// GROUP_LIMITS.
pub const MAX_GROUP_FITTED: u32 = 72;

pub const MAX_GROUP_ONLINE: u32 = 73;

pub const MAX_GROUP_ACTIVE: u32 = 74;

// item.rs, by itself.
pub const MAX_TYPE_FITTED: u32 = 75;

// REQUIRED: skill, then level.
pub const REQUIRED_SKILL_1: u32 = 76;

pub const REQUIRED_SKILL_1_LEVEL: u32 = 77;

pub const REQUIRED_SKILL_2: u32 = 78;

pub const REQUIRED_SKILL_2_LEVEL: u32 = 79;

pub const REQUIRED_SKILL_3: u32 = 80;

pub const REQUIRED_SKILL_3_LEVEL: u32 = 81;

pub const REQUIRED_SKILL_4: u32 = 82;

pub const REQUIRED_SKILL_4_LEVEL: u32 = 83;

pub const REQUIRED_SKILL_5: u32 = 84;

pub const REQUIRED_SKILL_5_LEVEL: u32 = 85;

pub const REQUIRED_SKILL_6: u32 = 86;

pub const REQUIRED_SKILL_6_LEVEL: u32 = 87;
