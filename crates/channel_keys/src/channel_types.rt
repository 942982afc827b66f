//! The types of secure channels (MS-NRPC 2.2.1.3.13, NETLOGON_SECURE_CHANNEL_TYPE), of those that this project opens.

/// Between a workstation or a member server and a controller of its domain.
pub const WORKSTATION_CHANNEL: u16 = 2;
/// Between controllers of two domains, of which one trusts the other.
pub const TRUSTED_DOMAIN_CHANNEL: u16 = 4;
/// Between a backup controller and the primary controller of its domain.
pub const BACKUP_CONTROLLER_CHANNEL: u16 = 6;
