//! What stays the same of a controller.
use plant_types::ControllerPlan;

/// The fixed part of a controller.
pub struct Fixed {
    pub plan: ControllerPlan,
    /// How far the clock goes on at each scan, 1 to 1000 ticks of 10 ms.
    pub scan_time: u32,
    /// How many networks a scan may begin, 1 to 10,000.
    pub watchdog: u32,
    /// How many scans it makes, 1 to 2000.
    pub scans: u32,
}

impl Drop for Fixed {
    fn drop(self) {
        let Fixed {
            plan: _,
            scan_time: _,
            watchdog: _,
            scans: _,
        } = self;
    }
}
