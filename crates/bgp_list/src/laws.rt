//! Laws of what is listed of a recording, on a function that does nothing.

ghost use Rattle.bgp_list.specs.EachListed.{EachConnectionIsListed, EachRefusalIsListed};

/// [`list_recording`](crate::list_recording), which puts a line at each packet at which there is
/// something to tell, lists each connection in a recording, and each two addresses of whose
/// connections none can be told; and that their packets rise says that it lists each once.
pub fn each_of_them_is_listed()
    ensures connections { EachConnectionIsListed }
    ensures refused { EachRefusalIsListed }
{}
