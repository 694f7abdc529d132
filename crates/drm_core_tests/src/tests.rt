//! What no script can do: calls of a core by hand, and a device by itself.
mod building;
mod collecting;
mod device_calls;
mod events;
mod loads;
mod outside;
