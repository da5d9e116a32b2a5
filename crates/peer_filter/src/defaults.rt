//! The rules that hold without options.

use crate::network::Network;
use crate::rule::{Rule, RuleAction};

/// What is denied to every server.
pub const ALWAYS_DENIED: [Rule; 12] = [
    // 0.0.0.0/8, this network (RFC 1122, section 3.2.1.3).
    Rule {
        network: Network::V4 {
            address: 0,
            bits: 8,
        },
        action: RuleAction::Deny,
    },
    // 169.254.0.0/16, link-local addresses (RFC 3927, section 2.1).
    Rule {
        network: Network::V4 {
            address: 0xa9fe_0000,
            bits: 16,
        },
        action: RuleAction::Deny,
    },
    // 224.0.0.0/3: multicast (RFC 5771), reserved addresses (RFC 1112, section 4) and the limited broadcast (RFC 919).
    Rule {
        network: Network::V4 {
            address: 0xe000_0000,
            bits: 3,
        },
        action: RuleAction::Deny,
    },
    // ::/96, IPv4-compatible addresses, with the unspecified one (RFC 4291, sections 2.5.2 and 2.5.5.1).
    Rule {
        network: Network::V6 {
            address: 0,
            bits: 96,
        },
        action: RuleAction::Deny,
    },
    // ::ffff:0:0/96, IPv4-mapped addresses (RFC 4291, section 2.5.5.2).
    Rule {
        network: Network::V6 {
            address: 0xffff_0000_0000,
            bits: 96,
        },
        action: RuleAction::Deny,
    },
    // 64:ff9b::/96, the well-known prefix of NAT64 (RFC 6052, section 2.1).
    Rule {
        network: Network::V6 {
            address: 0x0064_ff9b_0000_0000_0000_0000_0000_0000,
            bits: 96,
        },
        action: RuleAction::Deny,
    },
    // 64:ff9b:1::/48, the local-use prefix of NAT64 (RFC 8215, section 3).
    Rule {
        network: Network::V6 {
            address: 0x0064_ff9b_0001_0000_0000_0000_0000_0000,
            bits: 48,
        },
        action: RuleAction::Deny,
    },
    // 2001::/32, Teredo (RFC 4380, section 2.6).
    Rule {
        network: Network::V6 {
            address: 0x2001_0000_0000_0000_0000_0000_0000_0000,
            bits: 32,
        },
        action: RuleAction::Deny,
    },
    // 2002::/16, 6to4 (RFC 3056, section 2).
    Rule {
        network: Network::V6 {
            address: 0x2002_0000_0000_0000_0000_0000_0000_0000,
            bits: 16,
        },
        action: RuleAction::Deny,
    },
    // fd00:ec2::254/128, the metadata service of Amazon EC2, which hands out credentials.
    Rule {
        network: Network::V6 {
            address: 0xfd00_0ec2_0000_0000_0000_0000_0000_0254,
            bits: 128,
        },
        action: RuleAction::Deny,
    },
    // fe80::/10, link-local addresses (RFC 4291, section 2.5.6).
    Rule {
        network: Network::V6 {
            address: 0xfe80_0000_0000_0000_0000_0000_0000_0000,
            bits: 10,
        },
        action: RuleAction::Deny,
    },
    // ff00::/8, multicast (RFC 4291, section 2.7).
    Rule {
        network: Network::V6 {
            address: 0xff00_0000_0000_0000_0000_0000_0000_0000,
            bits: 8,
        },
        action: RuleAction::Deny,
    },
];

/// 127.0.0.0/8, the loopback network of IPv4 (RFC 1122, section 3.2.1.3).
pub const LOOPBACK_V4: Rule = Rule {
    network: Network::V4 {
        address: 0x7f00_0000,
        bits: 8,
    },
    action: RuleAction::Deny,
};

/// ::1/128, the loopback address of IPv6 (RFC 4291, section 2.5.3).
pub const LOOPBACK_V6: Rule = Rule {
    network: Network::V6 {
        address: 1,
        bits: 128,
    },
    action: RuleAction::Deny,
};

/// The same, where the server listens at it: it lies in ::/96.
pub const ALLOWED_LOOPBACK_V6: Rule = Rule {
    network: Network::V6 {
        address: 1,
        bits: 128,
    },
    action: RuleAction::Allow,
};
