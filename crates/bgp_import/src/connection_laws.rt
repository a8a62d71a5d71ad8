//! Laws of what there is to tell of in a recording, on a function that does nothing.

ghost use Rattle.bgp_import.specs.Alone.{ConnectionsStandAlone, NoneBeginsAtARefusal};
ghost use Rattle.bgp_import.specs.Alone.{RefusalsStandAlone};

/// No two connections in a recording begin at one packet, and none where a packet is refused; and
/// that is refused for no two pairs of addresses. So who tells what stands at each of these packets
/// tells each connection, and each two addresses of whose connections none can be told; and who
/// tells it in the order of packets tells each once.
pub fn each_stands_at_a_packet_of_its_own()
    ensures connections { ConnectionsStandAlone }
    ensures refusals { RefusalsStandAlone }
    ensures neither { NoneBeginsAtARefusal }
{}
