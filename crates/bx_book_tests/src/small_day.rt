//! The picture that is wanted of a small day.

/// Three bookings on three channels: one was carried, and its release not answered; two wait.
pub(crate) const SMALL_DAY: &str =
    "<svg xmlns='http://www.w3.org/2000/svg' version='1.1' width='1200' height='202' viewBox='0 0 1200 202'>
<title>A day as it went</title>
<style>
text{font:12px sans-serif;fill:#222}
.head{font-size:18px;font-weight:bold}
.small{font-size:10px;fill:#555}
.right{text-anchor:end}
.middle{text-anchor:middle}
.lane{fill:#eef1f4}
.hour{stroke:#b9c2cb;stroke-width:.6}
.free,.must{stroke:#16456e;stroke-width:.6;vector-effect:non-scaling-stroke}
.must{stroke:#4a2500}
.free.out{fill:#a5cdf0}
.free.in{fill:url(#free)}
.must.out{fill:#f5a742}
.must.in{fill:url(#must)}
.start{fill:none;stroke:#fff;stroke-width:.7}
.refused{fill:#b5538a}
.prices{fill:#5b9a68}
.edge{fill:none;stroke:#7a8691;stroke-width:.8}
</style>
<defs>
<linearGradient id='free' x1='0' y1='0' x2='0' y2='1'><stop offset='.38' stop-color='#a5cdf0'/><stop offset='.38' stop-color='#16456e'/><stop offset='.62' stop-color='#16456e'/><stop offset='.62' stop-color='#a5cdf0'/></linearGradient>
<linearGradient id='must' x1='0' y1='0' x2='0' y2='1'><stop offset='.38' stop-color='#f5a742'/><stop offset='.38' stop-color='#4a2500'/><stop offset='.62' stop-color='#4a2500'/><stop offset='.62' stop-color='#f5a742'/></linearGradient>
</defs>
<style>
.planned{fill-opacity:.25;stroke-dasharray:3 2}
.live{stroke-width:2;stroke-dasharray:none}
.mark{fill:none;stroke:#222;stroke-width:1.2;vector-effect:non-scaling-stroke}
.outage{fill:#444;fill-opacity:.3;pointer-events:none}
.broken{fill:url(#broken)}
.now{fill:none;stroke:#c00;stroke-width:1.5}
</style>
<defs>
<pattern id='broken' width='6' height='6' patternUnits='userSpaceOnUse' patternTransform='rotate(45)'><rect width='2' height='6' fill='#9a7b4f'/></pattern>
</defs>
<rect width='1200' height='202' fill='#fff'/>
<text class='head' x='56' y='26'>Paid 5 of 15, as far as 1:30:00</text>
<text x='56' y='46'>1 of 3 calls carried, 0 live, 2 waiting, 0 unanswered, 0 missed; outages of the link: 1</text>
<svg x='56' y='56' width='28' height='16' viewBox='0 0 28 10' preserveAspectRatio='none'><rect class='must out' x='1' y='1' width='26' height='9'/></svg><text x='90' y='69'>must, outward</text>
<svg x='196' y='56' width='28' height='16' viewBox='0 0 28 10' preserveAspectRatio='none'><rect class='must in' x='1' y='1' width='26' height='9'/></svg><text x='230' y='69'>must, inward</text>
<svg x='336' y='56' width='28' height='16' viewBox='0 0 28 10' preserveAspectRatio='none'><rect class='free out' x='1' y='3' width='26' height='5'/></svg><text x='370' y='69'>free, outward</text>
<svg x='476' y='56' width='28' height='16' viewBox='0 0 28 10' preserveAspectRatio='none'><rect class='free in' x='1' y='3' width='26' height='5'/></svg><text x='510' y='69'>free, inward</text>
<rect class='lane' x='56' y='93' width='1120' height='14'/><text class='small right' x='50' y='104'>1</text>
<rect class='lane' x='56' y='109' width='1120' height='14'/><text class='small right' x='50' y='120'>2</text>
<rect class='lane' x='56' y='125' width='1120' height='14'/><text class='small right' x='50' y='136'>3</text>
<rect class='broken' x='102.6' y='93' width='1073.4' height='14'><title>channel 1 in maintenance since 1:00:00</title></rect>
<svg x='56' y='92' width='1120' height='48' viewBox='0 0 86400 30' preserveAspectRatio='none'>
<g><title>row 1: 1234 pays 5, 0:00:10 to 1:00:00; carried from 0:00:10 until 1:00:00</title><rect class='free out planned' x='10' y='3' width='3590' height='5'/><rect class='free out carried' x='10' y='3' width='3590' height='5'/></g>
<g><title>row 2: 1234 pays 5, 2:00:00 to 4:00:00; waiting</title><rect class='free in planned' x='7200' y='13' width='7200' height='5'/></g>
<g><title>row 3: 1234 pays 5, 2:00:00 to 3:00:00; waiting</title><rect class='free out planned' x='7200' y='3' width='3600' height='5'/></g>
<rect class='outage' x='3000' y='0' width='100' height='30'><title>no link from 0:50:00 until 0:51:40</title></rect>
</svg>
<path class='start' d='M56.1 93v14M149.3 109v14M149.3 93v14'/>
<path class='hour' d='M56.0 92V140'/>
<text class='small middle' x='56.0' y='87'>0:00</text>
<text class='small middle' x='56.0' y='153'>0:00</text>
<path class='hour' d='M102.6 92V140'/>
<text class='small middle' x='102.6' y='87'>1:00</text>
<text class='small middle' x='102.6' y='153'>1:00</text>
<path class='hour' d='M149.3 92V140'/>
<text class='small middle' x='149.3' y='87'>2:00</text>
<text class='small middle' x='149.3' y='153'>2:00</text>
<path class='hour' d='M196.0 92V140'/>
<text class='small middle' x='196.0' y='87'>3:00</text>
<text class='small middle' x='196.0' y='153'>3:00</text>
<path class='hour' d='M242.6 92V140'/>
<text class='small middle' x='242.6' y='87'>4:00</text>
<text class='small middle' x='242.6' y='153'>4:00</text>
<path class='hour' d='M289.3 92V140'/>
<text class='small middle' x='289.3' y='87'>5:00</text>
<text class='small middle' x='289.3' y='153'>5:00</text>
<path class='hour' d='M336.0 92V140'/>
<text class='small middle' x='336.0' y='87'>6:00</text>
<text class='small middle' x='336.0' y='153'>6:00</text>
<path class='hour' d='M382.6 92V140'/>
<text class='small middle' x='382.6' y='87'>7:00</text>
<text class='small middle' x='382.6' y='153'>7:00</text>
<path class='hour' d='M429.3 92V140'/>
<text class='small middle' x='429.3' y='87'>8:00</text>
<text class='small middle' x='429.3' y='153'>8:00</text>
<path class='hour' d='M476.0 92V140'/>
<text class='small middle' x='476.0' y='87'>9:00</text>
<text class='small middle' x='476.0' y='153'>9:00</text>
<path class='hour' d='M522.6 92V140'/>
<text class='small middle' x='522.6' y='87'>10:00</text>
<text class='small middle' x='522.6' y='153'>10:00</text>
<path class='hour' d='M569.3 92V140'/>
<text class='small middle' x='569.3' y='87'>11:00</text>
<text class='small middle' x='569.3' y='153'>11:00</text>
<path class='hour' d='M616.0 92V140'/>
<text class='small middle' x='616.0' y='87'>12:00</text>
<text class='small middle' x='616.0' y='153'>12:00</text>
<path class='hour' d='M662.6 92V140'/>
<text class='small middle' x='662.6' y='87'>13:00</text>
<text class='small middle' x='662.6' y='153'>13:00</text>
<path class='hour' d='M709.3 92V140'/>
<text class='small middle' x='709.3' y='87'>14:00</text>
<text class='small middle' x='709.3' y='153'>14:00</text>
<path class='hour' d='M756.0 92V140'/>
<text class='small middle' x='756.0' y='87'>15:00</text>
<text class='small middle' x='756.0' y='153'>15:00</text>
<path class='hour' d='M802.6 92V140'/>
<text class='small middle' x='802.6' y='87'>16:00</text>
<text class='small middle' x='802.6' y='153'>16:00</text>
<path class='hour' d='M849.3 92V140'/>
<text class='small middle' x='849.3' y='87'>17:00</text>
<text class='small middle' x='849.3' y='153'>17:00</text>
<path class='hour' d='M896.0 92V140'/>
<text class='small middle' x='896.0' y='87'>18:00</text>
<text class='small middle' x='896.0' y='153'>18:00</text>
<path class='hour' d='M942.6 92V140'/>
<text class='small middle' x='942.6' y='87'>19:00</text>
<text class='small middle' x='942.6' y='153'>19:00</text>
<path class='hour' d='M989.3 92V140'/>
<text class='small middle' x='989.3' y='87'>20:00</text>
<text class='small middle' x='989.3' y='153'>20:00</text>
<path class='hour' d='M1036.0 92V140'/>
<text class='small middle' x='1036.0' y='87'>21:00</text>
<text class='small middle' x='1036.0' y='153'>21:00</text>
<path class='hour' d='M1082.6 92V140'/>
<text class='small middle' x='1082.6' y='87'>22:00</text>
<text class='small middle' x='1082.6' y='153'>22:00</text>
<path class='hour' d='M1129.3 92V140'/>
<text class='small middle' x='1129.3' y='87'>23:00</text>
<text class='small middle' x='1129.3' y='153'>23:00</text>
<path class='hour' d='M1176.0 92V140'/>
<text class='small middle' x='1176.0' y='87'>0:00</text>
<text class='small middle' x='1176.0' y='153'>0:00</text>
<path class='now' d='M126.0 92V140'/>
<text class='small middle' x='126.0' y='165'>now 1:30:00</text>
<svg y='174' width='1200' height='20'>
<svg x='56' width='28' height='16' viewBox='0 0 28 10' preserveAspectRatio='none'><rect class='free out planned' x='1' y='3' width='26' height='5'/></svg><text x='90' y='13'>waiting</text>
<svg x='196' width='28' height='16' viewBox='0 0 28 10' preserveAspectRatio='none'><rect class='free out planned live' x='1' y='3' width='26' height='5'/><rect class='free out carried' x='1' y='3' width='13' height='5'/></svg><text x='230' y='13'>live</text>
<svg x='336' width='28' height='16' viewBox='0 0 28 10' preserveAspectRatio='none'><rect class='free out carried' x='1' y='3' width='26' height='5'/></svg><text x='370' y='13'>carried</text>
<svg x='476' width='28' height='16' viewBox='0 0 28 10' preserveAspectRatio='none'><rect class='free out planned' x='1' y='3' width='26' height='5'/><rect class='free out carried' x='1' y='3' width='13' height='5'/><path class='mark' d='M14 3L27 8'/></svg><text x='510' y='13'>cut short</text>
<svg x='616' width='28' height='16' viewBox='0 0 28 10' preserveAspectRatio='none'><rect class='free out planned' x='1' y='3' width='26' height='5'/><path class='mark' d='M1 8L27 3'/><path class='mark' d='M1 3L27 8'/></svg><text x='650' y='13'>unanswered</text>
<svg x='756' width='28' height='16' viewBox='0 0 28 10' preserveAspectRatio='none'><rect class='free out planned' x='1' y='3' width='26' height='5'/><path class='mark' d='M1 8L27 3'/></svg><text x='790' y='13'>missed</text>
<rect class='outage' x='896' width='28' height='16'/><text x='930' y='13'>no link</text>
<rect class='broken' x='1036' y='1' width='28' height='14'/><text x='1070' y='13'>maintenance</text>
</svg>
</svg>
";
