//! Laws over the definitions, on functions that do nothing.
ghost use Rattle.drm_serial.specs.Laws.{NextPacketRunsLast, SerialKeepsSizes};

/// A packet commutes back past the packets of all later jobs.
pub fn next_packet_runs_last()
    ensures { NextPacketRunsLast }
{}

/// Turns whose jobs can run in the first memory leave every size as it was.
pub fn serial_keeps_sizes()
    ensures { SerialKeepsSizes }
{}
